//! What an instruction does to the registers.

ghost use Rattle.std.specs.Prelude.{◌≡◌, ◌==◌, List, ℕ};
ghost use Rattle.sm_words.specs.Sums.{one_if};
ghost use Rattle.sm_words.specs.Words.{add16, bit, reg};
ghost use Rattle.sm_words.specs.declared.status.TheConstants.{CARRY};
ghost use Rattle.insn_decode.specs.Code.{distance};
ghost use Rattle.cpu_step.specs.Effect.{set_flags, into_register, jumps, jumped, does_freely, confined};

use crate::accesses::step_past;
use crate::result::Computed;
use insn_decode::{Condition, Insn};
use sm_words::{Core, PC, SR, status};

/// Sets the flags of a result.
#[inline(always)]
pub fn set_flags(computed: &Computed, core: &mut Core)
    ensures { core.new ≡ set_flags computed.now core.old }
{
    let sr = computed.with_flags(core.sr());
    core.put(SR, sr);
}

/// Puts a result into a register: SR keeps what is written there, without flags.
#[inline(always)]
pub fn put_result(reg: u8, computed: &Computed, core: &mut Core)
    ensures { core.new ≡ into_register (reg == SR) reg computed.now core.old }
{
    if reg != SR {
        set_flags(computed, core);
    }
    core.put(reg, computed.value());
}

/// The carry flag.
pub fn carry(core: &Core) -> bool
    ensures { one_if result ≡ bit CARRY (reg core.now SR) }
{
    status::is_set(status::CARRY, core.sr())
}

/// Whether a jump is taken, by the flags of SR.
#[inline(always)]
fn jumps(condition: Condition, sr: u16) -> bool
    ensures { result ≡ jumps condition sr }
{
    let c = status::is_set(status::CARRY, sr);
    let z = status::is_set(status::ZERO, sr);
    let n = status::is_set(status::NEGATIVE, sr);
    let v = status::is_set(status::OVERFLOW, sr);
    match condition {
        Condition::NotZero => !z,
        Condition::Zero => z,
        Condition::NoCarry => !c,
        Condition::Carry => c,
        Condition::Negative => n,
        Condition::GreaterOrEqual => n == v,
        Condition::Less => n != v,
        Condition::Always => true,
    }
}

/// The address so many words past another.
fn target(next: u16, offset: i16) -> u16
    ensures { result ≡ add16 next (distance offset) }
{
    next.wrapping_add(offset.cast_unsigned().wrapping_mul(2))
}

/// Jumps, if the jump is taken, from past its instruction.
#[inline(always)]
fn jump(taken: bool, offset: i16, core: &mut Core)
    ensures { core.new ≡ jumped taken offset core.old }
{
    if taken {
        let target = target(core.pc(), offset);
        core.put(PC, target);
    }
}

/// A jump.
#[inline(always)]
pub fn do_jump(insn: &Insn, condition: Condition, offset: i16, core: &mut Core)
    requires { insn.now ≡ Insn.Jump condition offset }
    ensures { (values : List ℕ) → core.new ≡ (does_freely insn.now core.old values).core }
{
    let taken = jumps(condition, core.sr());
    step_past(insn, core);
    jump(taken, offset, core);
}

/// Inside a module SR keeps all bits but C, Z, N and V.
#[tactic(auto, unfolding(crate::specs::Effect::confined))]
pub fn confine(inside: bool, before: u16, core: &mut Core)
    ensures { (old : List ℕ) → reg old SR ≡ before → core.new ≡ confined inside old core.old }
{
    if inside {
        let now = core.sr();
        core.put(SR, status::confine(before, now));
    }
}
