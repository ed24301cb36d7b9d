//! Summaries: what is known of the arms of branches. Values rise from Known to Public and to Secret alone, and what the
//! arms of a branch do hangs on the values that they need: so one walk under a state with little in it serves all
//! states with more.

ghost use Rattle.std.specs.Prelude.{◌≡◌, ◌≢◌, ℕ, List, [], IfSome, IfOk, Some, None, true};
ghost use Rattle.flow_check.specs.declared.program.Program.{Program};
ghost use Rattle.flow_check.specs.internal.Points.{addrs_of, point_at};
ghost use Rattle.flow_check.specs.internal.Programs.{flow, flow_at};
ghost use Rattle.flow_check.specs.internal.Summaries.{blank_state, branch_from, OpensTo, IsSummary, AreSummaries};
ghost use Rattle.flow_check.specs.declared.summaries.Outcome.{Outcome};
ghost use Rattle.flow_rule.specs.Iterations.{given_by};
ghost use Rattle.flow_check.specs.declared.violation.Violation.{Violation};
ghost use Rattle.flow_check.specs.internal.Violations.{noted};
ghost use Rattle.flow_check.specs.internal.Steps.{SuccessorsAlike};

use crate::branch::{BranchSite, is_same, site_of, walk_arms};
use crate::call_string::CallString;
use crate::domain::{blank_state, overlay_state, subsumes};
use crate::point::Point;
use crate::program::{Flags, Program};
use crate::relevant::Relevance;
use crate::step::Stepped;
use crate::stub::{step_base, step_point};
use crate::violation::{Violation, note};
use flow_rule::{AbstractState, Reason, arms_rest};
use std::alloc::{AllocError, Global};
use std::collections::BTreeMap;

/// What the arms of a branch come to.
#[derive(Clone, Copy)]
pub enum Answer {
    /// No violation, also under each state that the summary's subsumes. The arms write where this is not Public.
    Open(AbstractState),
    /// A violation, also under each state that subsumes the summary's.
    Shut,
}

/// Whether a branch has no violation in its arms.
#[derive(Clone, Copy, Debug, PartialEq, Eq)]
pub enum Outcome {
    Open,
    Shut,
}

/// What the arms of a branch come to under a state.
#[derive(Clone, Copy)]
pub struct Summary {
    pub branch: u16,
    pub site: BranchSite,
    pub state: AbstractState,
    pub answer: Answer,
}

/// The summaries of the program points that are branches.
#[derive(Drop)]
pub struct Summaries {
    list: Vec<Summary>,
    /// Where the summary of the program point in each place of the labelling is.
    places: BTreeMap<usize, usize>,
}

/// Walks the arms of a branch under a state.
fn walked(
    program: &Program<'_>,
    site: &BranchSite,
    pc: u16,
    state: &AbstractState,
    relevance: &mut Relevance,
) -> Summary
    requires blurred { program.now.flags ≡ Flags.Blurred }
    ensures is { IsSummary program.now result }
    ensures branch { result.branch ≡ pc }
    ensures site { result.site ≡ site.now }
    ensures state { result.state ≡ state.now }
{
    let mut told = blank_state();
    let mut least: Option<Violation> = None;
    let from = Point {
        addr: pc,
        call_string: CallString::new(),
        state: *state,
    };
    walk_arms(program, site, &from, &mut least, &mut told, relevance);
    Summary {
        branch: pc,
        site: *site,
        state: *state,
        answer: if least.is_none() {
            Answer::Open(told)
        } else {
            Answer::Shut
        },
    }
}

/// What a walk under this state came to; where it is open, its arms then write.
fn settle(walked: &Summary, state: &mut AbstractState) -> Outcome
    requires own { walked.now.state ≡ state.old }
    ensures open { result ≡ Outcome.Open → (p : Program) (call_string : List ℕ) → IsSummary p walked.now →
        OpensTo p walked.now.site (branch_from walked.now.branch call_string state.old) state.new }
    ensures shut { result ≡ Outcome.Shut → (p : Program) (call_string : List ℕ) → IsSummary p walked.now →
        (flow_at p walked.now.site (branch_from walked.now.branch call_string state.old)).violations ≢ [] }
{
    arms_rest();
    match walked.answer {
        Answer::Open(told) => {
            overlay_state(state, &told);
            Outcome::Open
        }
        Answer::Shut => Outcome::Shut,
    }
}

/// Puts a summary in this place, or behind all others.
#[tactic(auto, using(crate::proofs::Subsuming::kept_push, crate::proofs::Subsuming::kept_set))]
fn put(list: &mut Vec<Summary>, place: usize, summary: Summary) -> Result<(), AllocError>
    ensures { IfOk result (λ _. (p : Program) → IsSummary p summary →
        AreSummaries p list.old.items → AreSummaries p list.new.items) }
{
    if place < list.len() {
        list[place] = summary;
        return Ok(());
    }
    list.push(summary)?;
    Ok(())
}

/// Whether a summary is open.
fn is_open(summary: &Summary) -> bool {
    matches!(summary.answer, Answer::Open(_))
}

/// A summary under as little of a state as the arms of an open branch need; where they come to more, the walk's own.
fn widened(program: &Program<'_>, whole: Summary, relevance: &Relevance) -> Summary
    requires blurred { program.now.flags ≡ Flags.Blurred }
    requires summary { IsSummary program.now whole }
    ensures { IsSummary program.now result }
{
    if is_open(&whole) {
        let mut none = Relevance::new(false);
        let top = relevance.least(&whole.state);
        let summary = walked(program, &whole.site, whole.branch, &top, &mut none);
        if is_open(&summary) {
            return summary;
        }
    }
    whole
}

impl Summaries {
    /// No summary.
    pub fn new(alloc: Global) -> Summaries
        ensures { (p : Program) → AreSummaries p result.list.items }
    {
        Summaries {
            list: Vec::new(alloc),
            places: BTreeMap::new(alloc),
        }
    }

    /// The summary of the program point there, if it is of this branch.
    fn at(&self, place: usize, site: &BranchSite, pc: u16) -> Option<Summary>
        ensures branch { IfSome result (λ s. s.branch ≡ pc) }
        ensures site { IfSome result (λ s. s.site ≡ site.now) }
        ensures kept { IfSome result (λ s. (p : Program) → AreSummaries p self.now.list.items → IsSummary p s) }
    {
        let Some(at) = self.places.get(&place) else {
            return None;
        };
        match self.list.get(*at) {
            Some(summary) if summary.branch == pc && is_same(&summary.site, site) => Some(*summary),
            Some(_) | None => None,
        }
    }

    /// What the summary of the program point there says under a state. Where the branch is open, its arms then write.
    fn answer(
        &self,
        place: usize,
        site: &BranchSite,
        pc: u16,
        state: &mut AbstractState,
    ) -> Option<Outcome>
        ensures open { result ≡ Some Outcome.Open → (p : Program) (call_string : List ℕ) →
            AreSummaries p self.now.list.items → OpensTo p site.now (branch_from pc call_string state.old) state.new }
        ensures shut { result ≡ Some Outcome.Shut → (p : Program) (call_string : List ℕ) →
            AreSummaries p self.now.list.items →
            (flow_at p site.now (branch_from pc call_string state.old)).violations ≢ [] }
        ensures silent { result ≡ None → state.new ≡ state.old }
    {
        arms_rest();
        let Some(summary) = self.at(place, site, pc) else {
            return None;
        };
        match summary.answer {
            Answer::Open(told) => {
                if subsumes(&summary.state, state) {
                    overlay_state(state, &told);
                    Some(Outcome::Open)
                } else {
                    None
                }
            }
            Answer::Shut => {
                if subsumes(state, &summary.state) {
                    Some(Outcome::Shut)
                } else {
                    None
                }
            }
        }
    }

    /// Keeps the summary of the program point there.
    fn keep(&mut self, place: usize, summary: Summary) -> Result<(), AllocError>
        ensures summaries { IfOk result (λ _. (p : Program) → IsSummary p summary →
            AreSummaries p self.old.list.items → AreSummaries p self.new.list.items) }
    {
        let end = self.list.len();
        let at = self.places.get(&place).copied().unwrap_or(end);
        put(&mut self.list, at, summary)?;
        self.places.insert(place, at)?;
        Ok(())
    }

    /// Whether a branch has no violation under its state. Where it has none, its arms then write.
    pub fn apply(
        &mut self,
        program: &Program<'_>,
        site: &BranchSite,
        place: usize,
        pc: u16,
        state: &mut AbstractState,
    ) -> Result<Outcome, AllocError>
        requires blurred { program.now.flags ≡ Flags.Blurred }
        requires summaries { AreSummaries program.now self.old.list.items }
        ensures open { IfOk result (λ outcome. outcome ≡ Outcome.Open → (call_string : List ℕ) →
            OpensTo program.now site.now (branch_from pc call_string state.old) state.new) }
        ensures shut { IfOk result (λ outcome. outcome ≡ Outcome.Shut → (call_string : List ℕ) →
            (flow_at program.now site.now (branch_from pc call_string state.old)).violations ≢ []) }
        ensures summaries { IfOk result (λ _. AreSummaries program.now self.new.list.items) }
    {
        if let Some(outcome) = self.answer(place, site, pc, state) {
            return Ok(outcome);
        }
        let mut relevance = Relevance::new(true);
        let whole = walked(program, site, pc, state, &mut relevance);
        self.keep(place, widened(program, whole, &relevance))?;
        Ok(settle(&whole, state))
    }

    /// Whether it is known that a branch has no violation under its state.
    pub fn is_open(&self, place: usize, site: &BranchSite, pc: u16, state: &AbstractState) -> bool
        ensures { result ≡ true → (p : Program) (call_string : List ℕ) → AreSummaries p self.now.list.items →
            (flow_at p site.now (branch_from pc call_string state.now)).violations ≡ [] }
    {
        let mut state = *state;
        match self.answer(place, site, pc, &mut state) {
            Some(Outcome::Open) => true,
            Some(Outcome::Shut) | None => false,
        }
    }
}

/// The step of a program point, whose state becomes that of all that it gives; of its violations only this is told:
/// whether there is one.
pub fn step_with(
    program: &Program<'_>,
    summaries: &mut Summaries,
    place: usize,
    point: &mut Point,
) -> Result<Stepped, AllocError>
    requires blurred { program.now.flags ≡ Flags.Blurred }
    requires summaries { AreSummaries program.now summaries.old.list.items }
    ensures calm { IfOk result (λ s. s.least ≡ None → (flow program.now (point_at point.old)).violations ≡ []) }
    ensures stirred { IfOk result (λ s. (c : Violation) → s.least ≡ Some c →
        given_by (flow program.now (point_at point.old)) ≡ []) }
    ensures targets { IfOk result (λ s. s.least ≡ None → s.targets.items
        ≡ addrs_of (flow program.now (point_at point.old)).gives) }
    ensures successors { IfOk result (λ s. s.least ≡ None →
        SuccessorsAlike (flow program.now (point_at point.old)) s.call_string point.new.state) }
    ensures summaries { IfOk result (λ _. AreSummaries program.now summaries.new.list.items) }
{
    let pc = point.addr;
    match site_of(program, pc, &point.state) {
        Some(site) => {
            let mut stepped = Stepped::new(&point.call_string);
            match summaries.apply(program, &site, place, pc, &mut point.state)? {
                Outcome::Open => {
                    stepped.targets.push(site.arm.join);
                    Ok(stepped)
                }
                Outcome::Shut => {
                    note(&mut stepped.least, pc, Reason::Arm, pc);
                    Ok(stepped)
                }
            }
        }
        None => Ok(step_point(program, point)),
    }
}

/// The lesser of a violation and those of a branch with a certificate.
fn violation_of_arms(
    program: &Program<'_>,
    summaries: &Summaries,
    place: usize,
    site: &BranchSite,
    point: &Point,
    mut least: Option<Violation>,
) -> Option<Violation>
    requires blurred { program.now.flags ≡ Flags.Blurred }
    requires summaries { AreSummaries program.now summaries.now.list.items }
    ensures { result ≡ noted (flow_at program.now site.now (point_at point.now)).violations least }
{
    if summaries.is_open(place, site, point.addr, &point.state) {
        return least;
    }
    let mut told = point.state;
    let mut none = Relevance::new(false);
    walk_arms(program, site, point, &mut least, &mut told, &mut none);
    least
}

/// The lesser of a violation and those of a program point.
pub fn violation_with(
    program: &Program<'_>,
    summaries: &Summaries,
    place: usize,
    point: &Point,
    least: Option<Violation>,
) -> Option<Violation>
    requires blurred { program.now.flags ≡ Flags.Blurred }
    requires summaries { AreSummaries program.now summaries.now.list.items }
    ensures { result ≡ noted (flow program.now (point_at point.now)).violations least }
{
    match site_of(program, point.addr, &point.state) {
        Some(site) => violation_of_arms(program, summaries, place, &site, point, least),
        None => {
            let mut stepped = Stepped::new(&point.call_string);
            stepped.least = least;
            let mut state = point.state;
            step_base(
                program,
                point.addr,
                &mut state.core,
                &mut state.words,
                &mut stepped,
            );
            stepped.least
        }
    }
}
