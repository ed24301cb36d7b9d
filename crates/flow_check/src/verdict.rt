//! The verdict of the fixpoint: the least violation, or yes.

ghost use Rattle.std.specs.Prelude.{◌≡◌, ◌≤◌, ◌<◌, ◌+◌, [], length, drop, ℕ, IfOk, None};
ghost use Rattle.flow_rule.specs.declared.AbstractState.{AbstractState};
ghost use Rattle.flow_rule.specs.Iterations.{all_violations, PointState, IsLabelling};
ghost use Rattle.flow_rule.specs.Verdict.{Decided};
ghost use Rattle.flow_check.specs.internal.Violations.{verdict_of, noted};
ghost use Rattle.flow_check.specs.internal.Points.{points_of};
ghost use Rattle.flow_check.specs.internal.Programs.{flow};
ghost use Rattle.flow_check.specs.internal.Summaries.{AreSummaries};

use crate::labelling::{Changed, Labelling};
use crate::program::{Flags, Program};
use crate::summaries::{Summaries, violation_with};
use crate::violation::Violation;
use crate::worklist::iterate;
use flow_rule::{AbstractState, Reason, Verdict};
use std::alloc::{AllocError, Global};

/// The lesser of a violation and those of a program point under its state.
#[tactic(auto, using(crate::proofs::Verdicts::least_more))]
fn least_more(
    program: &Program<'_>,
    summaries: &Summaries,
    all: &Labelling,
    i: usize,
    least: Option<Violation>,
) -> Option<Violation>
    requires blurred { program.now.flags ≡ Flags.Blurred }
    requires summaries { AreSummaries program.now summaries.now.list.items }
    requires here { i < length all.now }
    ensures { noted (all_violations (flow program.now) (points_of (drop i all.now))) least
        ≡ noted (all_violations (flow program.now) (points_of (drop (i + 1) all.now))) result }
{
    let point = all.point(i);
    violation_with(program, summaries, i, &point, least)
}

/// The least violation of the program points under their states.
#[tactic(auto, using(crate::proofs::Verdicts::least_end))]
fn least_of(program: &Program<'_>, summaries: &Summaries, all: &Labelling) -> Option<Violation>
    requires blurred { program.now.flags ≡ Flags.Blurred }
    requires summaries { AreSummaries program.now summaries.now.list.items }
    ensures { result ≡ noted (all_violations (flow program.now) (points_of all.now)) None }
{
    let mut least: Option<Violation> = None;
    for i in 0..all.len() {
        least = least_more(program, summaries, all, i, least);
    }
    least
}

/// The verdict of a least violation.
fn verdict_of(least: Option<Violation>) -> Verdict
    ensures { result ≡ verdict_of least }
{
    match least {
        Some(violation) => Verdict::No {
            addr: violation.addr,
            reason: violation.reason,
            value: violation.value,
        },
        None => Verdict::Yes,
    }
}

/// The verdict where an iteration changed nothing.
#[tactic(auto, using(crate::proofs::Verdicts::decided_rest))]
fn decide(program: &Program<'_>, summaries: &Summaries, all: &Labelling) -> Verdict
    requires blurred { program.now.flags ≡ Flags.Blurred }
    requires summaries { AreSummaries program.now summaries.now.list.items }
    requires fit { length all.now ≤ 16384 }
    ensures { (start : PointState) (begin : ℕ) →
        IsLabelling (flow program.now) start (points_of all.now) →
        Decided (flow program.now) start begin result }
{
    verdict_of(least_of(program, summaries, all))
}

/// The verdict, by iterations.
#[tactic(auto)]
pub fn verdict(
    alloc: Global,
    program: &Program<'_>,
    start: u16,
    first: &AbstractState,
) -> Result<Verdict, AllocError>
    requires blurred { program.now.flags ≡ Flags.Blurred }
    ensures { IfOk result (λ v. Decided
        (flow program.now) record {
          point = record { addr = start; call_string = [] };
          state = first.now;
        } program.now.module.now.text.start v) }
{
    let mut all = Labelling::begin(alloc, start, first)?;
    let mut summaries = Summaries::new(alloc);
    let mut front: Vec<Changed> = Vec::new(alloc);
    loop {
        front.clear();
        all.take_changed(&mut front)?;
        if front.is_empty() {
            return Ok(decide(program, &summaries, &all));
        }
        if iterate(program, &mut summaries, &mut all, front.as_slice())? {
            return Ok(Verdict::No {
                addr: program.module.text.start,
                reason: Reason::TooMany,
                value: 0,
            });
        }
    }
}
