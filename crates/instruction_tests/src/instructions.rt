//! Single instructions through a memory that records its calls. The values follow from the rules of the
//! MSP430x1xx Family User's Guide SLAU049, worked out by hand.

ghost use Rattle.std.specs.Prelude.{◌≡◌, ◌%◌, slice_index, slice_set};
ghost use Rattle.insn_decode.specs.Code.{is_unit};

use arrayvec::ArrayVec;
use cpu_step::{Port, are_aligned, execute, plan};
use insn_decode::{Insn, decode};
use pc_access::{Access, Kind};
use sm_words::{Core, Width};
use std::process::Abort;

mod in_memory;

/// A call of the memory, with the value that it gave or took.
#[derive(Clone, Copy, Debug, Default, PartialEq, Eq)]
struct Call {
    access: Access,
    value: u16,
}

fn get(addr: u16, value: u16) -> Call {
    made(Kind::Read, addr, Width::Word, value)
}

fn put(addr: u16, value: u16) -> Call {
    made(Kind::Write, addr, Width::Word, value)
}

fn get_byte(addr: u16, value: u16) -> Call {
    made(Kind::Read, addr, Width::Byte, value)
}

fn put_byte(addr: u16, value: u16) -> Call {
    made(Kind::Write, addr, Width::Byte, value)
}

fn made(kind: Kind, addr: u16, width: Width, value: u16) -> Call {
    Call {
        access: Access { kind, addr, width },
        value,
    }
}

/// A memory of 1,024 bytes, seen again every 1,024 addresses, and the first calls that it got.
#[derive(Drop)]
struct Recorder {
    bytes: [u8; 1024],
    calls: ArrayVec<Call, 4>,
}

impl Recorder {
    fn new() -> Recorder {
        Recorder {
            bytes: [0; 1024],
            calls: ArrayVec::new(),
        }
    }

    fn byte(&self, addr: u16) -> u8
        ensures { result ≡ slice_index self.now.bytes (addr % 1024) }
    {
        self.bytes[usize::from(addr % 1024)]
    }

    fn set_byte(&mut self, addr: u16, byte: u8)
        ensures { self.new.bytes ≡ slice_set self.old.bytes (addr % 1024) byte }
    {
        self.bytes[usize::from(addr % 1024)] = byte;
    }

    fn record(&mut self, kind: Kind, addr: u16, width: Width, value: u16)
        ensures { self.new.bytes ≡ self.old.bytes }
    {
        let _ = self.calls.try_push(made(kind, addr, width, value));
    }
}

impl Port for Recorder {
    ghost use Rattle.std.specs.Prelude.{List, ℕ, ◌+◌, ◌*◌, ◌/◌, ◌%◌, slice_index, slice_set};
    ghost use Rattle.sm_words.specs.declared.width.Width.TheVariants.{Byte, Word};

    ghost State = { List ℕ };

    ghost state = { λ memory. memory.bytes };

    ghost answer = { λ bytes width addr. elim width [
      | Byte ↦ slice_index bytes (addr % 1024)
      | Word ↦ slice_index bytes (addr % 1024) + 256 * slice_index bytes ((addr + 1) % 65536 % 1024)
    ] };

    ghost after_read = { λ bytes width addr. bytes };

    ghost after_write = { λ bytes width addr value. elim width [
      | Byte ↦ slice_set bytes (addr % 1024) (value % 256)
      | Word ↦ slice_set (slice_set bytes (addr % 1024) (value % 256)) ((addr + 1) % 65536 % 1024) (value / 256)
    ] };

    fn read(&mut self, addr: u16, width: Width) -> u16 {
        let low = u16::from(self.byte(addr));
        let value = match width {
            Width::Byte => low,
            Width::Word => low + 256 * u16::from(self.byte(addr.wrapping_add(1))),
        };
        self.record(Kind::Read, addr, width, value);
        value
    }

    fn write(&mut self, addr: u16, width: Width, value: u16) {
        self.record(Kind::Write, addr, width, value);
        self.set_byte(addr, (value % 256) as u8);
        if width == Width::Word {
            self.set_byte(addr.wrapping_add(1), (value / 256) as u8);
        }
    }
}

fn is_unit(insn: &Insn) -> bool
    ensures { result ≡ is_unit insn.now }
{
    matches!(insn, Insn::Unit(_))
}

/// A core, and its memory.
#[derive(Drop)]
struct Machine {
    core: Core,
    memory: Recorder,
}

/// Decodes and executes, and gives the cycles; `None` for what `execute` does not take.
fn run(machine: &mut Machine, code: [u16; 3], inside: bool) -> Option<u8> {
    let [first, second, third] = code;
    let insn = decode(first, second, third)?;
    let planned = plan(&insn, &machine.core);
    if is_unit(&insn) || !are_aligned(planned.as_slice()) {
        return None;
    }
    Some(execute(&insn, &mut machine.core, &mut machine.memory, inside))
}

/// The accesses of an instruction at 0x0200 with SP 0x0300 and R5 0x0310.
fn planned(code: [u16; 3]) -> ArrayVec<Access, 3> {
    let core = core_with([0x0300, 0, 0, 0x0310, 0]);
    match decode(code[0], code[1], code[2]) {
        Some(insn) => plan(&insn, &core),
        None => ArrayVec::new(),
    }
}

/// A core at 0x0200 with SP, SR, R4, R5 and R6.
fn core_with(registers: [u16; 5]) -> Core {
    let [sp, sr, r4, r5, r6] = registers;
    Core::new([0x0200, sp, sr, 0, r4, r5, r6, 0, 0, 0, 0, 0, 0, 0, 0, 0])
}

/// PC, SP, SR, R4, R5 and R6.
fn seen(core: &Core) -> [u16; 6] {
    [0, 1, 2, 4, 5, 6].map(|n| core.get(n))
}

/// A machine at 0x0200 with SP, SR, R4, R5 and R6, and with these words at these addresses.
fn started(registers: [u16; 5], words: [(u16, u16); 2]) -> Machine {
    let mut memory = Recorder::new();
    for (addr, word) in words {
        memory.set_byte(addr, (word % 256) as u8);
        memory.set_byte(addr.wrapping_add(1), (word / 256) as u8);
    }
    Machine {
        core: core_with(registers),
        memory,
    }
}

/// Asserts what an instruction leaves: PC, SP, SR, R4, R5 and R6, the calls of the memory, and what stands at the last
/// call's address.
fn assert_left(
    rt: &impl Abort,
    mut machine: Machine,
    code: [u16; 3],
    after: [u16; 6],
    calls: &[Call],
    cycles: u8,
) {
    let first = code[0];
    let taken = run(&mut machine, code, false);
    assert_eq!(rt; taken, Some(cycles), "of {first:04x}");
    assert_eq!(rt; seen(&machine.core), after, "of {first:04x}");
    let memory = &machine.memory;
    assert_eq!(rt; memory.calls.as_slice(), calls, "of {first:04x}");
    if let Some(last) = calls.last() {
        let byte = u16::from(memory.byte(last.access.addr));
        assert_eq!(rt; byte, last.value % 256, "of {first:04x}");
    }
}

/// A memory of zeros.
const ZEROS: [(u16, u16); 2] = [(0, 0); 2];

/// What stands in memory, but where a test says otherwise.
const WORDS: [(u16, u16); 2] = [(0x0300, 0x89ab), (0x0302, 0x1234)];

/// So far from 0x0300, where registers stand before.
fn from_base(far: u16) -> u16 {
    far.wrapping_add(0x0300)
}

// Row by row: the code, SR, R5 and R6 before, and SR, R5 and R6 after one cycle.
#[test]
fn registers(rt: HostRuntime) {
    let rows = [
        // SUB #1 from 8000 sets C and V; ADD #1 to 7fff N and V; DADD #1 to 9999 Z and C.
        (0x8315, [0, 0x8000, 0], [0x0101, 0x7fff, 0]),
        (0x5315, [0, 0x7fff, 0], [0x0104, 0x8000, 0]),
        (0xa315, [0, 0x9999, 0], [0x0003, 0x0000, 0]),
        // With C: ADDC, SUBC and DADD.
        (0x6506, [1, 0xffff, 0], [0x0003, 0xffff, 0]),
        (0x7506, [0, 4, 5], [0x0003, 4, 0]),
        (0xa315, [1, 0x9998, 0], [0x0003, 0x0000, 0]),
        // CMP sets flags alone; XOR of two negative words sets V; AND clears it.
        (0x9506, [0, 5, 5], [0x0003, 5, 5]),
        (0xe506, [0, 0xffff, 0x8000], [0x0101, 0xffff, 0x7fff]),
        (0xf506, [0x0101, 0x00ff, 0xff00], [0x0002, 0x00ff, 0]),
        // MOV, ADD, SUB, DADD, RRA and RRC of bytes clear the upper byte.
        (0x4546, [7, 0x12ab, 0xffff], [0x0007, 0x12ab, 0x00ab]),
        (0x5546, [0, 0x12f0, 0x3420], [0x0001, 0x12f0, 0x0010]),
        (0x8546, [0, 0xff01, 0xff80], [0x0101, 0xff01, 0x007f]),
        (0xa546, [0, 0x1299, 0x3401], [0x0003, 0x1299, 0x0000]),
        (0x1145, [0, 0x12ff, 0], [0x0005, 0x00ff, 0]),
        (0x1045, [0x0100, 0x1201, 0], [0x0003, 0x0000, 0]),
        // SWPB and SXT.
        (0x1085, [0x0107, 0x12ab, 0], [0x0107, 0xab12, 0]),
        (0x1185, [0x0100, 0x1280, 0], [0x0005, 0xff80, 0]),
        // BIC.B #1, SR and RRA SR: the result wins, and no flags are set.
        (0xc352, [0x0109, 0, 0], [0x0008, 0, 0]),
        (0x1102, [0x0103, 0, 0], [0x0081, 0, 0]),
        // MOV PC, R5 gives the next address.
        (0x4005, [0, 0, 0], [0, 0x0202, 0]),
        // MOV of the constants 0, 1, 2, -1, 4 and 8.
        (0x4305, [0, 9, 0], [0, 0, 0]),
        (0x4315, [0, 9, 0], [0, 1, 0]),
        (0x4325, [0, 9, 0], [0, 2, 0]),
        (0x4335, [0, 9, 0], [0, 0xffff, 0]),
        (0x4225, [0, 9, 0], [0, 4, 0]),
        (0x4235, [0, 9, 0], [0, 8, 0]),
    ];
    for (code, [sr, r5, r6], [new_sr, new_r5, new_r6]) in rows {
        let after = [0x0202, 0x0300, new_sr, 0, new_r5, new_r6];
        let before = started([0x0300, sr, 0, r5, r6], ZEROS);
        assert_left(&rt, before, [code, 0, 0], after, &[], 1);
    }
}

// MOV R5, PC goes to an even address.
#[test]
fn moves_to_pc(rt: HostRuntime) {
    let before = started([0x0300, 0, 0, 0x0457, 0], ZEROS);
    let after = [0x0456, 0x0300, 0, 0, 0x0457, 0];
    assert_left(&rt, before, [0x4500, 0, 0], after, &[], 2);
}

#[test]
fn jumps(rt: HostRuntime) {
    let rows = [
        // JNE, JEQ, JNC, JC, JN, JGE, JL: taken by one word, and not.
        (0x2001, 0, 2),
        (0x2401, 2, 0),
        (0x2801, 0, 1),
        (0x2c01, 1, 0),
        (0x3001, 4, 0),
        (0x3401, 0x0104, 4),
        (0x3801, 0x0100, 0x0104),
    ];
    for (code, taken, not) in rows {
        for (sr, pc) in [(taken, 0x0204), (not, 0x0202)] {
            let before = started([0x0300, sr, 0, 0, 0], ZEROS);
            let after = [pc, 0x0300, sr, 0, 0, 0];
            assert_left(&rt, before, [code, 0, 0], after, &[], 2);
        }
    }
}

// Inside a module SR keeps all bits but C, Z, N and V.
#[test]
fn inside(rt: HostRuntime) {
    let rows = [
        // BIC #8, SR: GIE stays inside.
        (0xc232, 0x0009, false, 0x0001),
        (0xc232, 0x0009, true, 0x0009),
        // BIS R4, SR with all bits.
        (0xd402, 0x0010, false, 0x01ff),
        (0xd402, 0x0010, true, 0x0117),
    ];
    for (code, sr, inside, want) in rows {
        let mut machine = started([0x0300, sr, 0xffff, 0, 0], ZEROS);
        let cycles = run(&mut machine, [code, 0, 0], inside);
        let left = (cycles, machine.core.get(2));
        assert_eq!(rt; left, (Some(1), want), "of {code:04x}");
    }
}

// R4 is 0x0300 before, R5 is 0xffff; each gives R5. Row by row: the code, PC, how far SP and R4 move, R5, the call and
// the cycles.
#[test]
fn reads(rt: HostRuntime) {
    let rows = [
        // 2(R4), -2(R4), 2(SP), symbolic, absolute, @R4, @R4+, @SP+.
        ([0x4415, 2], [0x0204, 0, 0, 0x1234], get(0x0302, 0x1234), 3),
        ([0x4415, 0xfffe], [0x0204, 0, 0, 0], get(0x02fe, 0), 3),
        ([0x4115, 2], [0x0204, 0, 0, 0x1234], get(0x0302, 0x1234), 3),
        (
            [0x4015, 0x100],
            [0x204, 0, 0, 0x1234],
            get(0x302, 0x1234),
            3,
        ),
        (
            [0x4215, 0x302],
            [0x204, 0, 0, 0x1234],
            get(0x302, 0x1234),
            3,
        ),
        ([0x4425, 0], [0x0202, 0, 0, 0x89ab], get(0x0300, 0x89ab), 2),
        ([0x4435, 0], [0x0202, 0, 2, 0x89ab], get(0x0300, 0x89ab), 2),
        ([0x4135, 0], [0x0202, 2, 0, 0x89ab], get(0x0300, 0x89ab), 2),
        // Bytes: 1(R4), @R4+ by 1, @SP+ by 2.
        ([0x4455, 1], [0x0204, 0, 0, 0x89], get_byte(0x0301, 0x89), 3),
        ([0x4475, 0], [0x0202, 0, 1, 0xab], get_byte(0x0300, 0xab), 2),
        ([0x4175, 0], [0x0202, 2, 0, 0xab], get_byte(0x0300, 0xab), 2),
        // CMP @R4, R5 writes nothing: ffff less 89ab is 7654, with no borrow.
        ([0x9425, 0], [0x0202, 0, 0, 0xffff], get(0x0300, 0x89ab), 2),
        // CMP R5, 2(R4) neither: 1234 less ffff is 1235, with a borrow.
        ([0x9584, 2], [0x0204, 0, 0, 0xffff], get(0x0302, 0x1234), 4),
    ];
    for ([code, next], [pc, sp, r4, r5], call, cycles) in rows {
        // Only CMP sets flags: C.
        let sr = if code == 0x9425 { 1 } else { 0 };
        let before = started([0x0300, 0, 0x0300, 0xffff, 0], WORDS);
        let after = [pc, from_base(sp), sr, from_base(r4), r5, 0];
        assert_left(&rt, before, [code, next, 0], after, &[call], cycles);
    }
}

// R4 is 0x5678 and R5 0x0310, before and after. MOV, PUSH and CALL keep the flags. Row by row: the code, PC and SP, the
// call and the cycles.
#[test]
fn writes(rt: HostRuntime) {
    let rows = [
        // MOV R4 to 2(R5), 4(SP), symbolic, absolute; a byte to 3(R5).
        ([0x4485, 2], [0x0204, 0x0300], put(0x0312, 0x5678), 4),
        ([0x4481, 4], [0x0204, 0x0300], put(0x0304, 0x5678), 4),
        ([0x4480, 0x0100], [0x0204, 0x0300], put(0x0302, 0x5678), 4),
        ([0x4482, 0x0304], [0x0204, 0x0300], put(0x0304, 0x5678), 4),
        ([0x44c5, 3], [0x0204, 0x0300], put_byte(0x0313, 0x78), 4),
        // MOV PC, &0x0400 stores the next address.
        ([0x4082, 0x0400], [0x0204, 0x0300], put(0x0400, 0x0204), 4),
        // PUSH of R4, its byte, SP, #0x1234 and the constant 4.
        ([0x1204, 0], [0x0202, 0x02fe], put(0x02fe, 0x5678), 3),
        ([0x1244, 0], [0x0202, 0x02fe], put_byte(0x02fe, 0x78), 3),
        ([0x1201, 0], [0x0202, 0x02fe], put(0x02fe, 0x0300), 3),
        ([0x1230, 0x1234], [0x0204, 0x02fe], put(0x02fe, 0x1234), 4),
        ([0x1222, 0], [0x0202, 0x02fe], put(0x02fe, 0x0004), 3),
        // CALL #0x0456 and CALL R5.
        ([0x12b0, 0x0456], [0x0456, 0x02fe], put(0x02fe, 0x0204), 5),
        ([0x1285, 0], [0x0310, 0x02fe], put(0x02fe, 0x0202), 4),
    ];
    for ([code, next], [pc, sp], call, cycles) in rows {
        let before = started([0x0300, 0x0107, 0x5678, 0x0310, 0], ZEROS);
        let after = [pc, sp, 0x0107, 0x5678, 0x0310, 0];
        assert_left(&rt, before, [code, next, 0], after, &[call], cycles);
    }
}

// MOV #0x1234, &0x0400.
#[test]
fn writes_a_constant(rt: HostRuntime) {
    let before = started([0x0300, 0x0107, 0x5678, 0x0310, 0], ZEROS);
    let after = [0x0206, 0x0300, 0x0107, 0x5678, 0x0310, 0];
    let call = put(0x0400, 0x1234);
    assert_left(&rt, before, [0x40b2, 0x1234, 0x0400], after, &[call], 5);
}

// MOV @SP+ into SP and PC: what was read wins over the increment.
#[test]
fn popped(rt: HostRuntime) {
    let rows = [(0x4131, 0x0202, 0x0456, 2), (0x4130, 0x0456, 0x0302, 3)];
    for (code, pc, sp, cycles) in rows {
        let after = [pc, sp, 0x0107, 0, 0, 0];
        let words = [(0x0300, 0x0456), (0, 0)];
        let calls = [get(0x0300, 0x0456)];
        let before = started([0x0300, 0x0107, 0, 0, 0], words);
        assert_left(&rt, before, [code, 0, 0], after, &calls, cycles);
    }
}

// The accesses with SP 0x0300 and R5 0x0310.
#[test]
fn plans(rt: HostRuntime) {
    let rows = [
        // MOV @R5+, 2(R5); ADD R5, absolute; PUSH @SP+; RETI.
        ([0x45b5, 0x0002, 0], [get(0x0310, 0), put(0x0314, 0)]),
        ([0x5582, 0x0400, 0], [get(0x0400, 0), put(0x0400, 0)]),
        ([0x1231, 0, 0], [get(0x0300, 0), put(0x0300, 0)]),
        ([0x1300, 0, 0], [get(0x0300, 0), get(0x0302, 0)]),
    ];
    for (code, calls) in rows {
        let want = calls.map(|call| call.access);
        assert_eq!(rt;
            planned(code).as_slice(),
            want.as_slice(),
            "of {:04x}",
            code[0]
        );
    }
    // CALL #0x0456 and CMP R5, 2(R5) make one access, JMP none.
    let call = [put(0x02fe, 0).access];
    assert_eq!(rt; planned([0x12b0, 0x0456, 0]).as_slice(), call.as_slice());
    let compared = [get(0x0312, 0).access];
    assert_eq!(rt;
        planned([0x9585, 0x0002, 0]).as_slice(),
        compared.as_slice()
    );
    assert!(rt; planned([0x3fff, 0, 0]).is_empty());
}
