//! Worked sums, and each call once.
use sm_words::{
    CG, Core, PC, SP, SR, Sum, Width, add, and, dadd, rra, rrc, status, swpb, sxt, xor,
};

fn sum(value: u16, n: bool, z: bool, c: bool, v: bool) -> Sum {
    Sum { value, n, z, c, v }
}

#[test]
fn worked_sums(rt: HostRuntime) {
    // 8000 less 1, 7fff and 1, and the decimal 9999 and 1.
    let less = add(0x8000, 0xfffe, true, Width::Word);
    assert_eq!(rt; less, sum(0x7fff, false, false, true, true));
    let more = add(0x7fff, 1, false, Width::Word);
    assert_eq!(rt; more, sum(0x8000, true, false, false, true));
    let decimal = dadd(0x9999, 1, false, Width::Word);
    assert_eq!(rt; decimal, sum(0, false, true, true, false));
}

#[test]
fn bytes(rt: HostRuntime) {
    // A byte operation looks at the low bytes alone.
    let total = add(0x12ff, 0x3401, false, Width::Byte);
    assert_eq!(rt; total, sum(0, false, true, true, false));
    let decimal = dadd(0x1245, 0x3457, true, Width::Byte);
    assert_eq!(rt; decimal, sum(0x03, false, false, true, false));
    let rotated = rrc(0x1201, true, Width::Byte);
    assert_eq!(rt; rotated, sum(0x80, true, false, true, false));
    let halved = rra(0x1281, Width::Byte);
    assert_eq!(rt; halved, sum(0xc0, true, false, true, false));
    let both = and(0x12f0, 0xff0f, Width::Byte);
    assert_eq!(rt; both, sum(0, false, true, false, false));
    let one = xor(0x12f0, 0xff80, Width::Byte);
    assert_eq!(rt; one, sum(0x70, false, false, true, true));
}

#[test]
fn whole_words(rt: HostRuntime) {
    assert_eq!(rt;
        rrc(0x0003, false, Width::Word),
        sum(1, false, false, true, false)
    );
    assert_eq!(rt;
        rra(0xfffe, Width::Word),
        sum(0xffff, true, false, false, false)
    );
    assert_eq!(rt; sxt(0x1280), sum(0xff80, true, false, true, false));
    assert_eq!(rt; sxt(0xff7f), sum(0x007f, false, false, true, false));
    assert_eq!(rt; swpb(0x40bf), 0xbf40);
    assert_eq!(rt;
        and(0xf0f0, 0x8f00, Width::Word),
        sum(0x8000, true, false, true, false)
    );
    assert_eq!(rt;
        xor(0xf0f0, 0xf0f0, Width::Word),
        sum(0, false, true, false, true)
    );
}

#[test]
fn registers(rt: HostRuntime) {
    let mut core = Core::new([0xffff; 16]);
    for (n, word) in [
        (PC, 0xfffe),
        (SP, 0xfffe),
        (SR, 0x01ff),
        (CG, 0),
        (4, 0xffff),
    ] {
        assert_eq!(rt; core.get(n), word, "in R{n}");
    }
    for (n, word) in [
        (PC, 0x1234),
        (SP, 0x1234),
        (SR, 0x0035),
        (CG, 0),
        (15, 0x1235),
    ] {
        core.put(n, 0x1235);
        assert_eq!(rt; core.get(n), word, "in R{n}");
    }
}

#[test]
fn named_registers(rt: HostRuntime) {
    let mut core = Core::new([0x0300; 16]);
    core.put(SR, status::GIE);
    assert_eq!(rt; (core.pc(), core.sp(), core.sr()), (0x0300, 0x0300, 0x0008));
    assert!(rt; core.is_gie() && !core.is_cpu_off());
}

#[test]
fn status_bits(rt: HostRuntime) {
    assert!(rt; status::is_set(status::OVERFLOW, 0x0100));
    // All flags but Z; GIE, CPUOFF, OSCOFF, SCG0 and SCG1 stay.
    let flags = sum(0, true, false, true, true);
    assert_eq!(rt; status::with_flags(&flags, 0x00fa), 0x01fd);
    assert_eq!(rt; status::confine(0x00f8, 0x0107), 0x01ff);
    assert_eq!(rt; status::confine(0x0107, 0x00f8), 0x0000);
    assert_eq!(rt; status::interrupt(0x01ff), 0x0040);
}

#[test]
fn widths(rt: HostRuntime) {
    assert_eq!(rt;
        (Width::Byte.limit(), Width::Word.limit()),
        (0x100, 0x10000)
    );
    assert_eq!(rt;
        (Width::Byte.low(0x1234), Width::Word.low(0x1234)),
        (0x34, 0x1234)
    );
    assert_eq!(rt;
        (
            Width::Byte.complement(0x1234),
            Width::Word.complement(0x1234)
        ),
        (0xcb, 0xedcb)
    );
}
