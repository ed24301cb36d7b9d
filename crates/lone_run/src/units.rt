//! The unit instructions that a module may do by itself.

ghost use Rattle.std.specs.Prelude.{◌≡◌, ◌≤◌, ◌-◌, true, false, length};
ghost use Rattle.sm_words.specs.Words.{put};
ghost use Rattle.insn_decode.specs.declared.insn.Insn.TheVariants.{Unit as UnitOp};
ghost use Rattle.mod_layout.specs.Table.{size_of};
ghost use Rattle.mod_layout.specs.Tables.{IsSection};
ghost use Rattle.attest.specs.Units.{next, CallerId, OwnId, Tag, Unprotect};
ghost use Rattle.cpu_step.specs.Lone.{is_alone, lone_does};
ghost use Rattle.lone_run.specs.Jobs.{lone_between};
ghost use Rattle.lone_run.specs.internal.Jobs.{lone_call, lasting};

use crate::job::{Job, Lasts};
use crate::next::has_ranges;
use crate::tagging::{store, tag_of};
use attest::{BLOCK_CYCLES, SHORT_CYCLES, hmac_blocks};
use insn_decode::UnitName;
use sm_words::{Core, PC};

/// Moves PC past the instruction.
fn step_past(core: &mut Core)
    ensures { core.new ≡ next core.old }
{
    let next = core.pc().wrapping_add(2);
    core.put(PC, next);
}

/// R15 takes the answer.
fn answer(core: &mut Core, value: u16, cycles: u32) -> Lasts
    ensures core { core.new ≡ put (next core.old) 15 value }
    ensures lasts { result ≡ record { cycles = cycles; closing = false } }
{
    step_past(core);
    core.put(15, value);
    Lasts {
        cycles,
        closing: false,
    }
}

/// The module closes after the last cycle.
#[tactic(auto, unfolding(cpu_step::specs::Lone::lone_does, cpu_step::specs::Asked::asks, cpu_step::specs::Asked::effect, attest::specs::Units::unit_plan, attest::specs::Units::unit_effect))]
fn unprotect(job: &Job<'_>, ram: &[u8], core: &mut Core) -> Lasts
    requires { IsSection job.now.owner.now.ram }
    ensures done { lone_does (lone_call job.now) (UnitOp Unprotect) (lone_between core.old ram.now)
        ≡ lasting core.new ram.now result }
    ensures some { 1 ≤ result.cycles }
{
    step_past(core);
    Lasts {
        cycles: SHORT_CYCLES + u32::from(job.owner.ram.end - job.owner.ram.start) / 2,
        closing: true,
    }
}

/// The tag of the bytes from R12, below R13, is written at R14, and R15 is 1; 0 where a range can't be accessed.
#[tactic(auto, using(crate::proofs::Tags::tag_short, crate::proofs::Tags::tag_done))]
fn tag(job: &Job<'_>, ram: &mut [u8], core: &mut Core) -> Lasts
    requires text { length job.now.text.now ≡ size_of job.now.owner.now.text }
    ensures done { lone_does (lone_call job.now) (UnitOp Tag) (lone_between core.old ram.old)
        ≡ lasting core.new ram.new result }
    ensures some { 1 ≤ result.cycles }
{
    if !has_ranges(core) {
        return answer(core, 0, SHORT_CYCLES);
    }
    let start = core.get(12);
    let count = core.get(13) - start;
    let tag = tag_of(job, ram, start, count);
    store(job.owner, ram, core.get(14), &tag);
    answer(
        core,
        1,
        SHORT_CYCLES + BLOCK_CYCLES * hmac_blocks(u32::from(count)),
    )
}

/// R15 is the module's own id.
#[tactic(auto, unfolding(cpu_step::specs::Lone::lone_does, cpu_step::specs::Asked::asks, cpu_step::specs::Asked::effect, attest::specs::Units::unit_plan, attest::specs::Units::unit_effect))]
fn own_id(job: &Job<'_>, ram: &[u8], core: &mut Core) -> Lasts
    ensures done { lone_does (lone_call job.now) (UnitOp OwnId) (lone_between core.old ram.now)
        ≡ lasting core.new ram.now result }
    ensures some { 1 ≤ result.cycles }
{
    answer(core, job.owner.id, SHORT_CYCLES)
}

/// R15 is the caller's id.
#[tactic(auto, unfolding(cpu_step::specs::Lone::lone_does, cpu_step::specs::Asked::asks, cpu_step::specs::Asked::effect, attest::specs::Units::unit_plan, attest::specs::Units::unit_effect))]
fn caller_id(job: &Job<'_>, ram: &[u8], core: &mut Core) -> Lasts
    ensures done { lone_does (lone_call job.now) (UnitOp CallerId) (lone_between core.old ram.now)
        ≡ lasting core.new ram.now result }
    ensures some { 1 ≤ result.cycles }
{
    answer(core, job.caller, SHORT_CYCLES)
}

/// Does a unit instruction.
pub fn do_unit(job: &Job<'_>, ram: &mut [u8], core: &mut Core, name: UnitName) -> Lasts
    requires alone { is_alone (UnitOp name) ≡ true }
    requires text { length job.now.text.now ≡ size_of job.now.owner.now.text }
    requires ram { IsSection job.now.owner.now.ram }
    ensures done { lone_does (lone_call job.now) (UnitOp name) (lone_between core.old ram.old)
        ≡ lasting core.new ram.new result }
    ensures some { 1 ≤ result.cycles }
{
    match name {
        UnitName::Unprotect => unprotect(job, ram, core),
        UnitName::Tag => tag(job, ram, core),
        UnitName::OwnId => own_id(job, ram, core),
        UnitName::CallerId => caller_id(job, ram, core),
        UnitName::Protect | UnitName::Attest | UnitName::IdOf => unreachable!(),
    }
}
