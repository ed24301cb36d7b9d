//! Instructions whose operands stand in memory: what they read there, and then write.

use super::{Call, WORDS, assert_left, from_base, get, get_byte, put, put_byte, started};
use std::process::Abort;

/// How far SP moves by a word that is pushed.
const DOWN: u16 = 0xfffe;

/// A word in memory, read and changed there.
fn change(addr: u16, old: u16, new: u16) -> [Call; 2] {
    [get(addr, old), put(addr, new)]
}

/// A byte in memory, read and changed there.
fn change_byte(addr: u16, old: u16, new: u16) -> [Call; 2] {
    [get_byte(addr, old), put_byte(addr, new)]
}

/// A word that is read, and put elsewhere.
fn copy(from: u16, to: u16, value: u16) -> [Call; 2] {
    [get(from, value), put(to, value)]
}

/// Asserts what an instruction at 0x0200 leaves, with SP and R5 0x0300, SR 0x0101 (C and V) and R4 0x0302 before: PC,
/// SR, how far SP and R5 move, the calls and the cycles. R4 is kept.
fn assert_moved(
    rt: &impl Abort,
    code: [u16; 3],
    words: [(u16, u16); 2],
    [pc, sr, sp, r5]: [u16; 4],
    calls: &[Call],
    cycles: u8,
) {
    let before = started([0x0300, 0x0101, 0x0302, 0x0300, 0], words);
    let after = [pc, from_base(sp), sr, 0x0302, from_base(r5), 0];
    assert_left(rt, before, code, after, calls, cycles);
}

// SP and R5 stay. Row by row: the code, PC and SR, the calls and the cycles.
#[test]
fn changes(rt: HostRuntime) {
    let rows = [
        // ADD R4 to 2(R5), symbolic, absolute; a byte to 2(R5).
        (0x5485, 2, [0x0204, 0], change(0x0302, 0x1234, 0x1536), 4),
        (0x5480, 0x100, [0x204, 0], change(0x302, 0x1234, 0x1536), 4),
        (0x5482, 0x302, [0x204, 0], change(0x302, 0x1234, 0x1536), 4),
        (0x54c5, 2, [0x0204, 0], change_byte(0x0302, 0x34, 0x36), 4),
        // RRA @R5, RRC 2(R5), RRC.B 3(R5), SWPB absolute, SXT symbolic.
        (0x1125, 0, [0x0202, 5], change(0x0300, 0x89ab, 0xc4d5), 3),
        (0x1015, 2, [0x0204, 4], change(0x0302, 0x1234, 0x891a), 4),
        (0x1055, 3, [0x0204, 4], change_byte(0x0303, 0x12, 0x89), 4),
        (
            0x1092,
            0x302,
            [0x204, 0x101],
            change(0x302, 0x1234, 0x3412),
            4,
        ),
        (0x1190, 0x100, [0x204, 1], change(0x302, 0x1234, 0x34), 4),
        // XOR.B #-1 on a byte at an odd address.
        (
            0xe3f2,
            0x301,
            [0x204, 0x101],
            change_byte(0x301, 0x89, 0x76),
            4,
        ),
    ];
    for (code, next, [pc, sr], calls, cycles) in rows {
        let after = [pc, sr, 0, 0];
        assert_moved(&rt, [code, next, 0], WORDS, after, &calls, cycles);
    }
}

// The flags are kept. Row by row: the code, PC, how far SP and R5 move, the calls and the cycles.
#[test]
fn copies(rt: HostRuntime) {
    let byte = [get_byte(0x0300, 0xab), put_byte(0x0300, 0xab)];
    let called = [get(0x0300, 0x89ab), put(0x0300, 0x0202)];
    let called_at = [get(0x0302, 0x1234), put(0x02fe, 0x0204)];
    let rows = [
        // PUSH @SP+ and its byte, PUSH @R5+, PUSH 2(R5).
        (0x1231, 0, [0x0202, 0, 0], copy(0x0300, 0x0300, 0x89ab), 5),
        (0x1271, 0, [0x0202, 0, 0], byte, 5),
        (0x1235, 0, [0x202, DOWN, 2], copy(0x300, 0x2fe, 0x89ab), 5),
        (0x1215, 2, [0x204, DOWN, 0], copy(0x302, 0x2fe, 0x1234), 5),
        // CALL @R1+, to an even address, and CALL 2(R5).
        (0x12b1, 0, [0x89aa, 0, 0], called, 5),
        (0x1295, 2, [0x1234, DOWN, 0], called_at, 5),
        // MOV @R5+, 2(R5).
        (0x45b5, 2, [0x0204, 0, 2], copy(0x0300, 0x0304, 0x89ab), 5),
    ];
    for (code, next, [pc, sp, r5], calls, cycles) in rows {
        let after = [pc, 0x0101, sp, r5];
        assert_moved(&rt, [code, next, 0], WORDS, after, &calls, cycles);
    }
}

// RRA @R5+; RETI; MOV symbolic, absolute; MOV absolute, symbolic.
#[test]
fn others(rt: HostRuntime) {
    let halved = change(0x0300, 0x89ab, 0xc4d5);
    let after = [0x0202, 5, 0, 2];
    assert_moved(&rt, [0x1135, 0, 0], WORDS, after, &halved, 3);
    let popped = [get(0x0300, 0x89ab), get(0x0302, 0x1234)];
    let after = [0x1234, 0x01ab, 4, 0];
    assert_moved(&rt, [0x1300, 0, 0], WORDS, after, &popped, 5);
    let after = [0x0206, 0x0101, 0, 0];
    let moved = copy(0x0302, 0x0400, 0x1234);
    assert_moved(&rt, [0x4092, 0x0100, 0x0400], WORDS, after, &moved, 6);
    let moved = copy(0x0302, 0x0304, 0x1234);
    assert_moved(&rt, [0x4290, 0x0302, 0x0100], WORDS, after, &moved, 6);
}

// Row by row: the code, PC, SR, how far SP and R5 move, the number that is put and the cycles.
#[test]
fn both(rt: HostRuntime) {
    let rows = [
        // ADD @R5+, 2(R5); ADD 0(R5), 2(R4); BIS symbolic, symbolic; DADD absolute, absolute.
        ([0x55b5, 2, 0], [0x0204, 0, 0, 2], 0x0033, 5),
        ([0x5594, 0, 2], [0x0206, 0, 0, 0], 0x0033, 6),
        ([0xd090, 0x00fe, 0x0100], [0x0206, 0x0101, 0, 0], 0x0033, 6),
        ([0xa292, 0x0300, 0x0304], [0x0206, 0, 0, 0], 0x0034, 6),
    ];
    let words = [(0x0300, 0x0011), (0x0304, 0x0022)];
    for (code, after, sum, cycles) in rows {
        let calls = [get(0x0300, 0x0011), get(0x0304, 0x0022), put(0x0304, sum)];
        assert_moved(&rt, code, words, after, &calls, cycles);
    }
    // SUB.B @SP+, absolute.
    let bytes = [
        get_byte(0x0300, 0x11),
        get_byte(0x0304, 0x22),
        put_byte(0x0304, 0x11),
    ];
    let after = [0x0204, 1, 2, 0];
    assert_moved(&rt, [0x81f2, 0x0304, 0], words, after, &bytes, 5);
}
