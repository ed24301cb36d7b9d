// Worked numbers, pulses and bytes.
use schedule_file::{Entry, What};
use std::test::Fail;
use workload::*;

#[test]
fn draws(rt: HostRuntime) {
    let first = next(0);
    let second = next(first);
    let third = next(second);
    assert_eq!(rt;
        [first, second, third, next(third)],
        [12_345, 1_406_932_606, 654_583_775, 1_449_466_924]
    );
}

#[test]
fn pulses(rt: HostRuntime) -> Result<(), Fail> {
    let schedule = schedule(rt.alloc(), 0)?;
    let entries = schedule.entries.as_slice();
    let wanted = [
        (26, What::Up(0)),
        (27, What::Down(0)),
        (285, What::Up(0)),
        (286, What::Down(0)),
        (424, What::Up(0)),
        (425, What::Down(0)),
    ];
    assert_eq!(rt; entries.len(), 2_000);
    for (entry, (cycle, what)) in entries.iter().zip(wanted) {
        assert_eq!(rt; *entry, Entry { cycle, what });
    }
    Ok(())
}

const TEXT: &str = "\
sancus-image 1
key 00000000000000000000000000000000
handler 0600
module 0007 0300 0322 0400 0402
at 0200 31400006d24340003740140232d23040
at 0210 00030343304000030000000000000000
at 0300 829300040424154200040343053c0343
at 0310 034303430343003c054332c007013040
at 0320 14020000000000000000000000000000
at 0400 01000000000000000000000000000000
at 0500 00130000000000000000000000000000
at ffe0 00000005000000000000000000000000
at fff0 00000000000000000000000000000002
end
";

#[test]
fn stands_in_memory(rt: HostRuntime) -> Result<(), Fail> {
    let image = image(rt.alloc(), 1)?;
    let text = image_text::write(rt.alloc(), &image)?;
    assert_eq!(rt; text.as_slice(), TEXT.as_bytes());
    Ok(())
}
