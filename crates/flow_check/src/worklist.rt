//! The worklist: which program points changed in the last iteration, and what they give, until the fixpoint.

ghost use Rattle.std.specs.Prelude.{◌≡◌, ◌≤◌, ◌<◌, ◌∷◌, List, length, true, false, IfOk};
ghost use Rattle.flow_rule.specs.Iterations.{join_all, given_points};
ghost use Rattle.flow_check.specs.internal.Points.{fronts_of, points_of};
ghost use Rattle.flow_check.specs.internal.Programs.{flow};
ghost use Rattle.flow_check.specs.internal.Summaries.{AreSummaries};
ghost use Rattle.flow_check.specs.internal.Labellings.{KeptPoints, NoMark, StillKept};

use crate::labelling::{Changed, Labelling};
use crate::program::{Flags, Program};
use crate::summaries::{Summaries, step_with};
use std::alloc::{AllocError, Global};

/// The most program points that an iteration may have.
const MOST: usize = 16384;

/// Joins what a program point that changed gives.
#[tactic(auto, using(crate::proofs::Successors::give_some, crate::proofs::Successors::give_none))]
fn give(
    program: &Program<'_>,
    summaries: &mut Summaries,
    all: &mut Labelling,
    changed: &Changed,
) -> Result<(), AllocError>
    requires blurred { program.now.flags ≡ Flags.Blurred }
    requires summaries { AreSummaries program.now summaries.old.list.items }
    ensures joined { IfOk result (λ _. (rest : List Changed) →
        join_all (given_points (flow program.now) (fronts_of (changed.now ∷ rest)))
        (points_of all.old) ≡ join_all (given_points (flow program.now) (fronts_of rest))
        (points_of all.new)) }
    ensures kept { IfOk result (λ _. StillKept all.old all.new) }
    ensures summaries { IfOk result (λ _. AreSummaries program.now summaries.new.list.items) }
{
    let mut point = changed.point;
    let stepped = step_with(program, summaries, changed.place, &mut point)?;
    if stepped.least.is_none() {
        let targets = stepped.targets.as_slice();
        all.take(&mut point.state, targets, &stepped.call_string)?;
    }
    Ok(())
}

/// An iteration over the program points that changed; whether there are too many then.
#[tactic(auto, using(crate::proofs::Taking::kept_start, crate::proofs::Taking::too_long))]
pub fn iterate(
    program: &Program<'_>,
    summaries: &mut Summaries,
    all: &mut Labelling,
    front: &[Changed],
) -> Result<bool, AllocError>
    requires blurred { program.now.flags ≡ Flags.Blurred }
    requires summaries { AreSummaries program.now summaries.old.list.items }
    requires clear { NoMark all.old }
    ensures joined { IfOk result (λ many. many ≡ false → points_of all.new
        ≡ join_all (given_points (flow program.now) (fronts_of front.now)) (points_of all.old)) }
    ensures kept { IfOk result (λ _. KeptPoints (points_of all.old) all.new) }
    ensures few { IfOk result (λ many. many ≡ false → length all.new ≤ 16384) }
    ensures many { IfOk result (λ many. many ≡ true → 16384
        < length (join_all (given_points (flow program.now) (fronts_of front.now)) (points_of all.old))) }
    ensures summaries { IfOk result (λ _. AreSummaries program.now summaries.new.list.items) }
{
    for changed in front {
        if all.len() > MOST {
            return Ok(true);
        }
        give(program, summaries, all, changed)?;
    }
    if all.len() > MOST {
        return Ok(true);
    }
    Ok(false)
}
