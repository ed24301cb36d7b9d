//! An arm of a secret branch, walked from its start to the join, its merge point.

ghost use Rattle.std.specs.Prelude.{◌≡◌, ◌≢◌, ◌≤◌, ◌<◌, ◌+◌, suc, ℕ, Err, IfOk, IfErr, slice_get};
ghost use Rattle.flow_check.specs.internal.Arms.{untold, told_insn, tally_told};
ghost use Rattle.flow_check.specs.internal.Points.{point_at};
ghost use Rattle.flow_check.specs.internal.Programs.{arm_walk};

use crate::accesses::reaches;
use crate::clobbers::{clobber_registers, clobber_words};
use crate::point::Point;
use crate::program::{Flags, Program};
use crate::relevant::Relevance;
use crate::step::Targets;
use crate::stub::step_point;
use arm_balance::met_arm;
use cycle_table::cycles;
use flow_rule::{AbstractState, Reach, Val};
use insn_decode::Insn;
use mod_layout::Module;

/// What is told along an arm: its cycles, and a state with Secret where it writes.
#[derive(Clone, Copy)]
pub struct Tally {
    pub cycles: u32,
    pub state: AbstractState,
}

/// Tells what an instruction takes and writes.
fn tell(module: &Module, insn: &Insn, reaches: &[Reach], time: u8, tally: &mut Tally)
    requires { tally.old.cycles + time < 4294967296 }
    ensures { tally.new ≡ told_insn time insn.now module.now reaches.now tally.old }
{
    tally.cycles += u32::from(time);
    clobber_registers(insn, &mut tally.state.core);
    clobber_words(module, reaches, &mut tally.state.words);
}

/// The first address.
fn first_of(targets: &Targets) -> Option<u16>
    ensures { result ≡ slice_get targets.now.items 0 }
{
    targets.first().copied()
}

/// Does the arm's instruction at this point, or tells the address where the arm stops.
fn walk_on(
    program: &Program<'_>,
    join: u16,
    point: &mut Point,
    tally: &mut Tally,
    relevance: &mut Relevance,
) -> Result<(), u16>
    requires blurred { program.now.flags ≡ Flags.Blurred }
    requires before { point.old.addr ≢ join }
    requires short { tally.old.cycles < 4294967000 }
    ensures on { IfOk result (λ _. (steps : ℕ) →
        tally_told (arm_walk program.now join (suc steps) (point_at point.old)) tally.old
        ≡ tally_told (arm_walk program.now join steps (point_at point.new)) tally.new) }
    ensures stops { IfErr result (λ addr. (steps : ℕ) →
        tally_told (arm_walk program.now join (suc steps) (point_at point.old)) tally.old ≡ Err addr) }
    ensures cycles { tally.new.cycles ≤ tally.old.cycles + 6 }
{
    let module = program.module;
    let pc = point.addr;
    let Some((insn, next)) = met_arm(module.text, program.text, pc, join) else {
        return Err(pc);
    };
    let reaches = reaches(&insn, pc, &point.state.core);
    let reached = reaches.as_slice();
    relevance.follow(module, &insn, reached);
    let stepped = step_point(program, point);
    if stepped.least.is_some() {
        return Err(pc);
    }
    match first_of(&stepped.targets) {
        Some(to) => {
            tell(module, &insn, reached, cycles(&insn), tally);
            point.addr = to;
            point.state.core[0] = Val::Known(to);
            point.call_string = stepped.call_string;
            Ok(())
        }
        None => Err(next),
    }
}

/// Walks from a point to the join: what is told along the arm, or the address where it stops. Each instruction of an
/// arm goes up, so there are no more than addresses up to the join.
pub fn walk(
    program: &Program<'_>,
    join: u16,
    from: &Point,
    state: &AbstractState,
    relevance: &mut Relevance,
) -> Result<Tally, u16>
    requires blurred { program.now.flags ≡ Flags.Blurred }
    ensures { result ≡ tally_told (arm_walk program.now join (suc join) (point_at from.now)) (untold state.now) }
{
    relevance.begin();
    let mut point = *from;
    let mut tally = Tally {
        cycles: 0,
        state: *state,
    };
    let mut left = u32::from(join) + 1;
    while left > 0 {
        if point.addr == join {
            return Ok(tally);
        }
        if let Err(addr) = walk_on(program, join, &mut point, &mut tally, relevance) {
            return Err(addr);
        }
        left -= 1;
    }
    Err(point.addr)
}
