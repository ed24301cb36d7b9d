//! First words of each row of the table, words outside it, and the text of instructions.
use arrayvec::ArrayString;
use insn_decode::{Condition, Insn, OneOp, Operand, TwoOp, UnitName, decode, length, show};
use sm_words::Width;
use std::process::Abort;

/// What a first word means with 0x1234 and 0x5678 after it.
fn meaning(word: u16) -> Option<Insn> {
    decode(word, 0x1234, 0x5678)
}

fn two(op: TwoOp, src: Operand, dst: Operand) -> Option<Insn> {
    let width = Width::Word;
    Some(Insn::Two {
        op,
        width,
        src,
        dst,
    })
}

fn one(op: OneOp, arg: Operand) -> Option<Insn> {
    let width = Width::Word;
    Some(Insn::One { op, width, arg })
}

/// A byte instruction on R5.
fn byte(op: OneOp) -> Option<Insn> {
    let (width, arg) = (Width::Byte, Operand::Reg(5));
    Some(Insn::One { op, width, arg })
}

fn jump(condition: Condition, offset: i16) -> Option<Insn> {
    Some(Insn::Jump { condition, offset })
}

#[test]
fn sources(rt: HostRuntime) {
    let rows = [
        (0x4005, Operand::Reg(0)),
        (0x4015, Operand::Symbolic(0x1234)),
        (0x4035, Operand::Imm(0x1234)),
        (0x4105, Operand::Reg(1)),
        (0x4115, Operand::Indexed { reg: 1, x: 0x1234 }),
        (0x4125, Operand::Indirect(1)),
        (0x4135, Operand::Increment(1)),
        (0x4205, Operand::Reg(2)),
        (0x4215, Operand::Absolute(0x1234)),
        (0x4225, Operand::Const(4)),
        (0x4235, Operand::Const(8)),
        (0x4305, Operand::Const(0)),
        (0x4315, Operand::Const(1)),
        (0x4325, Operand::Const(2)),
        (0x4335, Operand::Const(0xffff)),
        (0x4405, Operand::Reg(4)),
        (0x4f15, Operand::Indexed { reg: 15, x: 0x1234 }),
        (0x4f25, Operand::Indirect(15)),
        (0x4435, Operand::Increment(4)),
    ];
    for (word, src) in rows {
        let want = two(TwoOp::Mov, src, Operand::Reg(5));
        assert_eq!(rt; meaning(word), want, "of {word:04x}");
    }
}

#[test]
fn destinations(rt: HostRuntime) {
    let rows = [
        (0x4500, Operand::Reg(5), Operand::Reg(0)),
        (0x4503, Operand::Reg(5), Operand::Reg(3)),
        (0x4580, Operand::Reg(5), Operand::Symbolic(0x1234)),
        (0x4582, Operand::Reg(5), Operand::Absolute(0x1234)),
        (
            0x4586,
            Operand::Reg(5),
            Operand::Indexed { reg: 6, x: 0x1234 },
        ),
        (0x4092, Operand::Symbolic(0x1234), Operand::Absolute(0x5678)),
        (
            0x4391,
            Operand::Const(1),
            Operand::Indexed { reg: 1, x: 0x1234 },
        ),
    ];
    for (word, src, dst) in rows {
        assert_eq!(rt; meaning(word), two(TwoOp::Mov, src, dst), "of {word:04x}");
    }
}

#[test]
fn opcodes(rt: HostRuntime) {
    let rows = [
        (0x4405, TwoOp::Mov),
        (0x5405, TwoOp::Add),
        (0x6405, TwoOp::Addc),
        (0x7405, TwoOp::Subc),
        (0x8405, TwoOp::Sub),
        (0x9405, TwoOp::Cmp),
        (0xa405, TwoOp::Dadd),
        (0xb405, TwoOp::Bit),
        (0xc405, TwoOp::Bic),
        (0xd405, TwoOp::Bis),
        (0xe405, TwoOp::Xor),
        (0xf405, TwoOp::And),
    ];
    for (word, op) in rows {
        let want = two(op, Operand::Reg(4), Operand::Reg(5));
        assert_eq!(rt; meaning(word), want, "of {word:04x}");
    }
}

#[test]
fn single_operands(rt: HostRuntime) {
    let rows = [
        (0x1005, one(OneOp::Rrc, Operand::Reg(5))),
        (0x1085, one(OneOp::Swpb, Operand::Reg(5))),
        (0x1105, one(OneOp::Rra, Operand::Reg(5))),
        (0x1185, one(OneOp::Sxt, Operand::Reg(5))),
        (0x1110, one(OneOp::Rra, Operand::Symbolic(0x1234))),
        (0x1112, one(OneOp::Rra, Operand::Absolute(0x1234))),
        (0x1125, one(OneOp::Rra, Operand::Indirect(5))),
        (0x1135, one(OneOp::Rra, Operand::Increment(5))),
        (0x1230, one(OneOp::Push, Operand::Imm(0x1234))),
        (0x1223, one(OneOp::Push, Operand::Const(2))),
        (0x12b0, one(OneOp::Call, Operand::Imm(0x1234))),
        (0x12b3, one(OneOp::Call, Operand::Const(0xffff))),
        (0x1045, byte(OneOp::Rrc)),
        (0x1145, byte(OneOp::Rra)),
        (0x1245, byte(OneOp::Push)),
    ];
    for (word, want) in rows {
        assert_eq!(rt; meaning(word), want, "of {word:04x}");
    }
}

#[test]
fn the_rest(rt: HostRuntime) {
    let rows = [
        (0x1300, Some(Insn::Reti)),
        (0x1380, Some(Insn::Unit(UnitName::Unprotect))),
        (0x1386, Some(Insn::Unit(UnitName::CallerId))),
        (0x2000, jump(Condition::NotZero, 0)),
        (0x2400, jump(Condition::Zero, 0)),
        (0x2800, jump(Condition::NoCarry, 0)),
        (0x2c00, jump(Condition::Carry, 0)),
        (0x3000, jump(Condition::Negative, 0)),
        (0x3400, jump(Condition::GreaterOrEqual, 0)),
        (0x39ff, jump(Condition::Less, 511)),
        (0x3e00, jump(Condition::Always, -512)),
        (0x3fff, jump(Condition::Always, -1)),
    ];
    for (word, want) in rows {
        assert_eq!(rt; meaning(word), want, "of {word:04x}");
    }
}

#[test]
fn outside(rt: HostRuntime) {
    let indirect_pc = [0x4025, 0x1220];
    let r3_as_a_place = [0x4583, 0x4593];
    let no_place = [
        0x1030, 0x1003, 0x10b0, 0x10a2, 0x1130, 0x1103, 0x11b0, 0x1193,
    ];
    let no_byte_form = [0x10c5, 0x11c5, 0x12c5];
    let beside_units = [0x1301, 0x137f, 0x1387, 0x13ff];
    let no_form = [0x0000, 0x0fff, 0x1400, 0x1fff];
    refused(&rt, &indirect_pc);
    refused(&rt, &r3_as_a_place);
    refused(&rt, &no_place);
    refused(&rt, &no_byte_form);
    refused(&rt, &beside_units);
    refused(&rt, &no_form);
}

fn refused(rt: &impl Abort, words: &[u16]) {
    for word in words {
        assert_eq!(rt; meaning(*word), None, "of {word:04x}");
        assert_eq!(rt; length(*word), 1, "of {word:04x}");
    }
}

#[test]
fn all_first_words(rt: HostRuntime) {
    let inside = (0..=u16::MAX)
        .filter(|w| decode(*w, 0, 0).is_some())
        .count();
    assert_eq!(rt; inside, 55_597);
    for word in 0..=u16::MAX {
        if let Some(insn) = meaning(word) {
            assert_eq!(rt; insn.length(), length(word), "of {word:04x}");
        }
    }
}

#[test]
fn texts(rt: HostRuntime) {
    let rows = [
        (0x4035, 0x0200, "mov #0x1234, r5"),
        (0x4303, 0x0204, "mov #0, r3"),
        (0x3fff, 0x0206, "jmp 0x0206"),
        (0x4335, 0x0200, "mov #-1, r5"),
        (0x5a7f, 0x0200, "add.b @r10+, r15"),
        (0x4596, 0x0200, "mov 0x1234(r5), 0x5678(r6)"),
        (0x9090, 0x0200, "cmp 0x1436, 0x587c"),
        (0xd2e2, 0x0200, "bis.b #4, &0x1234"),
        (0x4f24, 0x0200, "mov @r15, r4"),
        (0x1210, 0xfffe, "push 0x1234"),
        (0x1285, 0x0200, "call r5"),
        (0x23ff, 0x0000, "jne 0x0000"),
        (0x2200, 0x0200, "jne 0xfe02"),
        (0x1300, 0x0200, "reti"),
        (0x1386, 0x0200, "unit 6"),
    ];
    let mut out = ArrayString::new();
    for (word, at, text) in rows {
        if let Some(insn) = decode(word, 0x1234, 0x5678) {
            show(&insn, at, &mut out);
        }
        assert_eq!(rt; out.as_str(), text, "of {word:04x}");
    }
}
