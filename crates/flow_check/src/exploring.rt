//! An exploration: states are walked one by one, depth first, and are not joined.

ghost use Rattle.std.specs.Prelude.{◌≡◌, ◌<◌, ◌∷◌, [], ℕ, List, length, drop, suc, true, false, if◌then◌else◌, IfOk};
ghost use Rattle.flow_laws.specs.Exploring.{says_less, say_less, is_known, forks};
ghost use Rattle.flow_laws.specs.Exploring.{take_state, on_top, explore, most_states};
ghost use Rattle.flow_check.specs.internal.Points.{points_at, list_of};
ghost use Rattle.flow_check.specs.internal.Steps.{Gives};
ghost use Rattle.flow_check.specs.internal.Programs.{flow_by};
ghost use Rattle.flow_check.specs.internal.Exploring.{held_point, stacked, Takes, Ends};

use crate::call_string::CallString;
use crate::domain::{Core, get};
use crate::program::Program;
use crate::step::Stepped;
use crate::stub::step_base;
use crate::violation::Violation;
use arm_balance::met;
use flow_rule::Val;
use insn_decode::Insn;
use std::alloc::{AllocError, Global};

/// How many states may be to come and kept.
const MOST: usize = 1024;

/// A program point with what is known there of the registers and of all words of the data.
#[derive(Drop)]
pub struct Held {
    pub addr: u16,
    pub call_string: CallString,
    pub core: Core,
    pub words: Vec<Val>,
}

/// What becomes of a state: others are to come, it has a violation, or there are too many.
#[derive(Clone, Copy)]
enum Advance {
    On,
    Wrong(Violation),
    Full,
}

/// How an exploration ends, and with how many steps left.
#[derive(Clone, Copy)]
pub enum Ending {
    Complete { left: u32 },
    Violated { left: u32, violation: Violation },
    Unfinished { left: u32, addr: u16 },
}

/// Whether the first says no more than the second.
fn says_less(u: Val, v: Val) -> bool
    ensures { result ≡ says_less u v }
{
    match (u, v) {
        (Val::Secret, _) => true,
        (Val::Public, Val::Secret) => false,
        (Val::Public, _) => true,
        (Val::Away, Val::Away) => true,
        (Val::Known(a), Val::Known(b)) => a == b,
        _ => false,
    }
}

/// Whether the first of two values at a place says no more.
#[tactic(auto, using(crate::proofs::Holdings::less_here, crate::proofs::Holdings::less_none))]
fn less_at(us: &[Val], vs: &[Val], i: usize) -> bool
    requires here { i < length us.now }
    ensures on { result ≡ true → say_less (drop i us.now) (drop i vs.now) ≡ say_less (drop (suc i) us.now) (drop (suc i) vs.now) }
    ensures not { result ≡ false → say_less (drop i us.now) (drop i vs.now) ≡ false }
{
    match vs.get(i) {
        Some(v) => says_less(us[i], *v),
        None => false,
    }
}

/// Whether each of these values says no more than the one of its place.
fn say_less(us: &[Val], vs: &[Val]) -> bool
    ensures { result ≡ say_less us.now vs.now }
{
    for i in 0..us.len() {
        if !less_at(us, vs, i) {
            return false;
        }
    }
    true
}

/// Whether a state stands at another's address and says no more.
fn covers(kept: &Held, held: &Held) -> bool
    ensures { result ≡ is_known (held_point kept.now ∷ []) (held_point held.now) }
{
    kept.addr == held.addr
        && say_less(&kept.core, &held.core)
        && say_less(kept.words.as_slice(), held.words.as_slice())
}

/// Whether one of these states does.
fn is_known(kept: &[Held], held: &Held) -> bool
    ensures { result ≡ is_known (stacked kept.now []) (held_point held.now) }
{
    for one in kept {
        if covers(one, held) {
            return true;
        }
    }
    false
}

/// Whether the ways part at a state: its instruction is a conditional jump, under flags that are no number.
fn forks(program: &Program<'_>, held: &Held) -> bool
    ensures { result ≡ forks program.now.module.now program.now.text.now (held_point held.now) }
{
    match met(program.module.text, program.text, held.addr) {
        Some(Insn::Jump { condition, .. }) => {
            !condition.is_always() && !matches!(get(&held.core, 2), Val::Known(_))
        }
        _ => false,
    }
}

/// A copy.
fn copy(held: &Held) -> Result<Held, AllocError>
    ensures { IfOk result (λ h. held_point h ≡ held_point held.now) }
{
    Ok(Held {
        addr: held.addr,
        call_string: held.call_string,
        core: held.core,
        words: held.words.clone()?,
    })
}

/// The state at another address, with this call string.
fn move_to(held: &mut Held, call_string: &CallString, to: u16)
    ensures { held_point held.new ∷ [] ≡ points_at (to ∷ []) (list_of call_string.now) (held_point held.old).state }
{
    held.addr = to;
    held.call_string = *call_string;
    held.core[0] = Val::Known(to);
}

/// One state more is to come, before others.
#[tactic(auto, using(crate::proofs::Holdings::push_more))]
fn push_one(
    held: &Held,
    call_string: &CallString,
    to: u16,
    to_come: &mut Vec<Held>,
) -> Result<(), AllocError>
    ensures { IfOk result (λ _. (rest : List ℕ) →
        on_top (points_at (to ∷ rest) (list_of call_string.now) (held_point held.now).state) (stacked to_come.old.items [])
        ≡ on_top (points_at rest (list_of call_string.now) (held_point held.now).state) (stacked to_come.new.items [])) }
{
    let mut next = copy(held)?;
    move_to(&mut next, call_string, to);
    to_come.push(next)?;
    Ok(())
}

/// The states at these addresses are to come.
fn push_each(
    held: &Held,
    call_string: &CallString,
    targets: &[u16],
    to_come: &mut Vec<Held>,
) -> Result<(), AllocError>
    ensures { IfOk result (λ _. stacked to_come.new.items []
        ≡ on_top (points_at targets.now (list_of call_string.now) (held_point held.now).state)
        (stacked to_come.old.items [])) }
{
    for to in targets {
        push_one(held, call_string, *to, to_come)?;
    }
    Ok(())
}

/// What a step gives is to come; where that is one state, the words move to it.
fn push_all(
    held: Held,
    call_string: &CallString,
    targets: &[u16],
    to_come: &mut Vec<Held>,
) -> Result<(), AllocError>
    ensures { IfOk result (λ _. stacked to_come.new.items []
        ≡ on_top (points_at targets.now (list_of call_string.now) (held_point held).state)
        (stacked to_come.old.items [])) }
{
    if targets.len() == 1 {
        let mut next = held;
        move_to(&mut next, call_string, targets[0]);
        to_come.push(next)?;
        return Ok(());
    }
    push_each(&held, call_string, targets, to_come)
}

/// The step of a state, whose registers and words become those of all that it gives.
fn step_held(program: &Program<'_>, held: &mut Held) -> Stepped
    requires plain { program.now.arms.now ≡ [] }
    ensures { Gives (flow_by program.now (held_point held.old)) result (held_point held.new).state }
{
    let mut stepped = Stepped::new(&held.call_string);
    let words = held.words.as_mut_slice();
    step_base(program, held.addr, &mut held.core, words, &mut stepped);
    stepped
}

/// Keeps a state, where the ways part at it.
#[tactic(auto, using(crate::proofs::Holdings::keep_one))]
fn keep(program: &Program<'_>, held: &Held, kept: &mut Vec<Held>) -> Result<(), AllocError>
    ensures { IfOk result (λ _. stacked kept.new.items [] ≡
        (if forks program.now.module.now program.now.text.now (held_point held.now)
        then held_point held.now ∷ stacked kept.old.items [] else stacked kept.old.items [])) }
{
    if forks(program, held) {
        kept.push(copy(held)?)?;
    }
    Ok(())
}

/// Takes a state from those to come.
fn take(
    program: &Program<'_>,
    held: Held,
    to_come: &mut Vec<Held>,
    kept: &mut Vec<Held>,
) -> Result<Advance, AllocError>
    requires plain { program.now.arms.now ≡ [] }
    ensures { IfOk result (λ a. Takes a (take_state (flow_by program.now)
        (forks program.now.module.now program.now.text.now) most_states (held_point held)
        (stacked to_come.old.items []) (stacked kept.old.items [])) to_come.new.items kept.new.items) }
{
    if is_known(kept.as_slice(), &held) {
        return Ok(Advance::On);
    }
    let mut held = held;
    keep(program, &held, kept)?;
    let stepped = step_held(program, &mut held);
    if let Some(violation) = stepped.least {
        return Ok(Advance::Wrong(violation));
    }
    push_all(
        held,
        &stepped.call_string,
        stepped.targets.as_slice(),
        to_come,
    )?;
    if to_come.len() + kept.len() > MOST {
        return Ok(Advance::Full);
    }
    Ok(Advance::On)
}

/// Explores from a state, by at most so many steps.
pub fn explore(
    alloc: Global,
    program: &Program<'_>,
    first: Held,
    steps: u32,
) -> Result<Ending, AllocError>
    requires plain { program.now.arms.now ≡ [] }
    ensures { IfOk result (λ e. Ends e (explore (flow_by program.now)
        (forks program.now.module.now program.now.text.now) most_states (held_point first ∷ []) [] steps)) }
{
    let mut to_come = Vec::new(alloc);
    let mut kept = Vec::new(alloc);
    to_come.push(first)?;
    let mut left = steps;
    while let Some(held) = to_come.pop() {
        let addr = held.addr;
        if left == 0 {
            return Ok(Ending::Unfinished { left, addr });
        }
        left -= 1;
        match take(program, held, &mut to_come, &mut kept)? {
            Advance::On => {}
            Advance::Wrong(violation) => return Ok(Ending::Violated { left, violation }),
            Advance::Full => return Ok(Ending::Unfinished { left, addr }),
        }
    }
    Ok(Ending::Complete { left })
}
