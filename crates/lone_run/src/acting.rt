//! One instruction of a module by itself.

ghost use Rattle.std.specs.Prelude.{◌≡◌, ◌≤◌, length, true, IsFalse};
ghost use Rattle.insn_decode.specs.Code.{IsDecoded, is_unit};
ghost use Rattle.mod_layout.specs.Table.{size_of};
ghost use Rattle.mod_layout.specs.Tables.{IsSection};
ghost use Rattle.cpu_step.specs.Asked.{asks};
ghost use Rattle.cpu_step.specs.Lone.{all_inside, is_alone, lone_does, lone_who};
ghost use Rattle.lone_run.specs.Jobs.{lone_between};
ghost use Rattle.lone_run.specs.internal.Jobs.{lone_call, lasting};

use crate::job::{Job, Lasts};
use crate::sections::{Sections, settle};
use crate::units::do_unit;
use cpu_step::execute;
use insn_decode::Insn;
use sm_words::Core;

/// Does an instruction that is no unit instruction.
#[tactic(auto, using(crate::proofs::Plain::plain_done))]
fn do_plain(job: &Job<'_>, ram: &mut [u8], core: &mut Core, insn: &Insn) -> Lasts
    requires decoded { IsDecoded insn.now }
    requires no_unit { IsFalse (is_unit insn.now) }
    requires inside { all_inside (lone_call job.now) (asks (lone_who (lone_call job.now)) insn.now core.old) ≡ true }
    ensures done { lone_does (lone_call job.now) insn.now (lone_between core.old ram.old)
        ≡ lasting core.new ram.new result }
    ensures some { 1 ≤ result.cycles }
{
    let mut sections = Sections {
        job: *job,
        ram: &*ram,
        put: None,
    };
    let cycles = execute(insn, core, &mut sections, true);
    let put = sections.put;
    settle(job.owner, ram, put);
    Lasts {
        cycles: u32::from(cycles),
        closing: false,
    }
}

/// Does an instruction that the module may do by itself.
pub fn do_insn(job: &Job<'_>, ram: &mut [u8], core: &mut Core, insn: &Insn) -> Lasts
    requires decoded { IsDecoded insn.now }
    requires alone { is_alone insn.now ≡ true }
    requires inside { all_inside (lone_call job.now) (asks (lone_who (lone_call job.now)) insn.now core.old) ≡ true }
    requires text { length job.now.text.now ≡ size_of job.now.owner.now.text }
    requires ram { IsSection job.now.owner.now.ram }
    ensures done { lone_does (lone_call job.now) insn.now (lone_between core.old ram.old)
        ≡ lasting core.new ram.new result }
    ensures some { 1 ≤ result.cycles }
{
    match *insn {
        Insn::Unit(name) => do_unit(job, ram, core, name),
        Insn::Two { .. } | Insn::One { .. } | Insn::Jump { .. } | Insn::Reti => {
            do_plain(job, ram, core, insn)
        }
    }
}
