//! An instruction through a port.

ghost use Rattle.std.specs.Prelude.{◌≡◌, ◌≤◌, IsFalse};
ghost use Rattle.insn_decode.specs.Code.{IsDecoded, is_unit};
ghost use Rattle.cycle_table.specs.Cycles.{cycles_of};
ghost use Rattle.cpu_step.specs.Plan.{plan};
ghost use Rattle.cpu_step.specs.Through.{AreAligned, through};

use crate::doing::do_freely;
use crate::effect::confine;
use crate::port::Port;
use insn_decode::Insn;
use sm_words::Core;

/// Does one instruction whose address is in PC, and gives its cycles.
///
/// The planned accesses are done in their order, once each, with no other. Inside a module SR keeps all
/// bits but C, Z, N and V.
#[inline(always)]
#[tactic(auto, unfolding(crate::specs::Effect::does))]
pub fn execute<P: Port>(insn: &Insn, core: &mut Core, port: &mut P, inside: bool) -> u8
    requires decoded { IsDecoded insn.now }
    requires no_unit { IsFalse (is_unit insn.now) }
    requires aligned { AreAligned (plan insn.now core.old) }
    ensures core { core.new ≡
        (through P.answer P.after_read P.after_write insn.now core.old inside (P.state port.old)).core }
    ensures port { P.state port.new ≡
        (through P.answer P.after_read P.after_write insn.now core.old inside (P.state port.old)).state }
    ensures cycles { result ≡ cycles_of insn.now }
    ensures least { 1 ≤ result }
{
    let sr = core.sr();
    do_freely(insn, core, port);
    confine(inside, sr, core);
    cycle_table::cycles(insn)
}
