//! The instruction that a cycle begins.

ghost use Rattle.std.specs.Prelude.{◌≡◌};
ghost use Rattle.insn_decode.specs.Code.{IsDecoded};
ghost use Rattle.cpu_step.specs.Plan.{past};
ghost use Rattle.cpu_step.specs.Through.{AreAligned};
ghost use Rattle.written_machine.specs.Checks.{entered};
ghost use Rattle.owner_steps.specs.Begun.{begun_as};
ghost use Rattle.owner_steps.specs.internal.Touching.{plan_shown};
ghost use Rattle.owner_steps.specs.internal.Watching.{Sees};

use crate::showing::lines_of;
use arrayvec::ArrayString;
use board::{Settled, Watch};
use insn_decode::{Insn, decode};
use sm_words::{Core, PC};

/// An instruction that begins, unless it is refused.
#[derive(Drop)]
pub struct Found {
    /// The registers before it.
    pub core: Core,
    /// The same with PC behind it.
    pub past: Core,
    /// Its line, and those of what it reads and writes.
    pub lines: ArrayString<160>,
}

/// What looks at a settled cycle for the instruction that begins.
#[derive(Drop)]
pub struct Watcher {
    pub found: Option<Found>,
}

impl Watch for Watcher {
    ghost use Rattle.owner_steps.specs.internal.Watching.{Sees};

    ghost looks = { λ old s new. Sees s new.found };

    fn look(&mut self, settled: &Settled<'_>) {
        self.found = found_in(settled);
    }
}

// The instruction at PC, where one begins.
fn found_in(settled: &Settled<'_>) -> Option<Found>
    ensures { Sees settled.now result }
{
    if !settled.begins() {
        return None;
    }
    let (first, second, third) = settled.words();
    match decode(first, second, third) {
        None => None,
        Some(insn) => Some(begin_with(settled, &insn)),
    }
}

// What is found, where this instruction is at PC.
fn begin_with(settled: &Settled<'_>, insn: &Insn) -> Found
    requires { IsDecoded insn.now }
    ensures core { result.core ≡ settled.now.core }
    ensures past { result.past ≡ past insn.now settled.now.core }
    ensures lines { AreAligned (plan_shown insn.now settled.now.frames settled.now.core) →
        result.lines.bytes ≡ (begun_as (entered settled.now) insn.now).lines }
{
    let core = settled.core();
    Found {
        core,
        past: past(insn, &core),
        lines: lines_of(settled, insn),
    }
}

// The registers with PC behind an instruction.
fn past(insn: &Insn, core: &Core) -> Core
    ensures { result ≡ past insn.now core.now }
{
    let mut past = *core;
    past.put(PC, core.pc().wrapping_add(2 * insn.length()));
    past
}
