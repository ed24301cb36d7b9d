//! An arm: the instructions that are met from its start, up to the join.

ghost use Rattle.std.specs.Prelude.{◌≡◌, ◌<◌, ◌≤◌, ◌+◌, ◌*◌, ◌&&◌, nat_le, if◌then◌else◌, not, Some, None, IfSome, IfNone, IsFalse};
ghost use Rattle.sm_words.specs.Words.{add16};
ghost use Rattle.insn_decode.specs.Code.{IsDecoded, is_unit, distance};
ghost use Rattle.arm_balance.specs.Met.{met};
ghost use Rattle.arm_balance.specs.Balance.{not_pc, arm_next, arm_on};

use crate::text::met;
use insn_decode::{Insn, OneOp, Operand};
use mod_layout::Section;

/// The address so many words past another, modulo 65,536.
fn past(next: u16, offset: i16) -> u16
    ensures { result ≡ add16 next (distance offset) }
{
    next.wrapping_add(offset.cast_unsigned().wrapping_mul(2))
}

/// Where a jump at `pc` goes.
pub fn target(pc: u16, offset: i16) -> u16
    ensures exact { result ≡ add16 (add16 pc 2) (distance offset) }
{
    past(pc.wrapping_add(2), offset)
}

/// Whether an operand is PC itself.
fn is_pc(operand: Operand) -> bool
    ensures { result ≡ not (not_pc operand) }
{
    match operand {
        Operand::Reg(reg) => reg == 0,
        _ => false,
    }
}

/// The address past an instruction, where it ends at most at `join`.
fn up_to(pc: u16, length: u16, join: u16) -> Option<u16>
    ensures { result ≡ (if nat_le (pc + 2 * length) join then Some (pc + 2 * length) else None) }
{
    let next = usize::from(pc) + 2 * usize::from(length);
    if next <= usize::from(join) {
        Some(next as u16)
    } else {
        None
    }
}

/// Where an instruction of an arm to `join` goes on, or none where it may not stand there.
pub fn arm_next(insn: &Insn, pc: u16, join: u16) -> Option<u16>
    ensures exact { result ≡ arm_next join pc (Some insn.now) }
    ensures no_unit { IfSome result (λ _. IsFalse (is_unit insn.now)) }
    ensures up { IfSome result (λ next. (pc < next) × (next ≤ join)) }
{
    match *insn {
        Insn::Two { dst, .. } => {
            if is_pc(dst) {
                None
            } else {
                up_to(pc, insn.length(), join)
            }
        }
        Insn::One { op, arg, .. } => {
            if op == OneOp::Call || is_pc(arg) {
                None
            } else {
                up_to(pc, insn.length(), join)
            }
        }
        Insn::Jump { condition, offset } => {
            let to = target(pc, offset);
            (condition.is_always() && pc < to && to <= join).then_some(to)
        }
        Insn::Reti | Insn::Unit(_) => None,
    }
}

/// The instruction of an arm at `pc`, and where it goes on.
#[tactic(auto, using(crate::proofs::Following::goes))]
pub fn met_arm(section: Section, text: &[u8], pc: u16, join: u16) -> Option<(Insn, u16)>
    ensures met { IfSome result (λ r. met section text.now pc ≡ Some r.0) }
    ensures goes_on { IfSome result (λ r. arm_on section text.now join pc ≡ Some r.1) }
    ensures stops { result ≡ None → arm_on section text.now join pc ≡ None }
    ensures decoded { IfSome result (λ r. IsDecoded r.0) }
    ensures no_unit { IfSome result (λ r. IsFalse (is_unit r.0)) }
    ensures up { IfSome result (λ r. (pc < r.1) × (r.1 ≤ join)) }
{
    if !(section.holds(usize::from(pc)) && pc < join) {
        return None;
    }
    match met(section, text, pc) {
        Some(insn) => match arm_next(&insn, pc, join) {
            Some(next) => Some((insn, next)),
            None => None,
        },
        None => None,
    }
}
