//! The cycles that an instruction takes.
#![tactic(auto)]

ghost use Rattle.std.specs.Prelude.{◌≡◌, ◌≤◌, ◌<◌, IsFalse};
ghost use Rattle.insn_decode.specs.Code.{is_unit};
ghost use Rattle.cycle_table.specs.Cycles.{cycles_of, by_place, two_cycles, in_place, by_operation, one_cycles};

use insn_decode::{Insn, OneOp, Operand};
use sm_words::PC;

/// The clock cycles of an instruction, 1 to 6. The cycles of a unit instruction depend on its operands, so
/// it must not be one.
#[inline(always)]
#[tactic(auto, unfolding(crate::specs::Cycles::cycles_of))]
pub fn cycles(insn: &Insn) -> u8
    requires no_unit { IsFalse (is_unit insn.now) }
    ensures exact { result ≡ cycles_of insn.now }
    ensures least { 1 ≤ result }
    ensures most { result ≤ 6 }
{
    match *insn {
        Insn::Two { src, dst, .. } => two_cycles(src, dst),
        Insn::One { op, arg, .. } => one_cycles(arg, op),
        Insn::Jump { .. } => 2,
        Insn::Reti => 5,
        Insn::Unit(_) => 6,
    }
}

/// Format I: the number for this place of the result.
fn by_place(dst: Operand, register: u8, pc: u8, memory: u8) -> u8
    ensures { result ≡ by_place dst register pc memory }
{
    match dst {
        Operand::Reg(PC) => pc,
        Operand::Reg(_) => register,
        _ => memory,
    }
}

/// Format I, from this source to this place.
#[inline(always)]
#[tactic(auto, using(crate::proofs::Least::two_least, crate::proofs::Least::two_most))]
fn two_cycles(src: Operand, dst: Operand) -> u8
    ensures exact { result ≡ two_cycles src dst }
    ensures least { 1 ≤ result }
    ensures most { result ≤ 6 }
{
    match src {
        Operand::Reg(_) | Operand::Const(_) => by_place(dst, 1, 2, 4),
        Operand::Indirect(_) => by_place(dst, 2, 2, 5),
        Operand::Increment(_) | Operand::Imm(_) => by_place(dst, 2, 3, 5),
        Operand::Indexed { .. } | Operand::Symbolic(_) | Operand::Absolute(_) => by_place(
            dst, 3, 3, 6,
        ),
    }
}

/// Format II: RRC, RRA, SWPB and SXT, at the place that they change.
fn in_place(arg: Operand) -> u8
    ensures exact { result ≡ in_place arg }
    ensures least { 1 ≤ result }
    ensures most { result ≤ 4 }
{
    match arg {
        Operand::Reg(_) => 1,
        _ => 3 + arg.words() as u8,
    }
}

/// Format II: the number for this operation.
fn by_operation(op: OneOp, arg: Operand, push: u8, call: u8) -> u8
    ensures { result ≡ by_operation op arg push call }
{
    match op {
        OneOp::Push => push,
        OneOp::Call => call,
        OneOp::Rrc | OneOp::Swpb | OneOp::Rra | OneOp::Sxt => in_place(arg),
    }
}

/// Format II, of this operation on this operand.
#[tactic(auto, using(crate::proofs::Least::one_least, crate::proofs::Least::one_most))]
fn one_cycles(arg: Operand, op: OneOp) -> u8
    ensures exact { result ≡ one_cycles arg op }
    ensures least { 1 ≤ result }
    ensures most { result ≤ 6 }
{
    match arg {
        Operand::Reg(_) | Operand::Const(_) => by_operation(op, arg, 3, 4),
        Operand::Indirect(_) => by_operation(op, arg, 4, 4),
        Operand::Increment(_) => by_operation(op, arg, 5, 5),
        Operand::Imm(_) => by_operation(op, arg, 4, 5),
        Operand::Indexed { .. } | Operand::Symbolic(_) | Operand::Absolute(_) => by_operation(
            op, arg, 5, 5,
        ),
    }
}
