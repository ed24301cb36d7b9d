//! The abstract domain: what is known of a word in both runs, of the registers and of the data, with its join.

ghost use Rattle.std.specs.Prelude.{◌≡◌, length, ◌≤◌, ◌<◌, ◌+◌, ◌*◌, ◌++◌, suc, take, drop, true, false};
ghost use Rattle.std.specs.Prelude.{Some, None, ◌%◌, ◌∷◌, [], slice_set};
ghost use Rattle.sm_words.specs.Words.{add16, bit};
ghost use Rattle.flow_rule.specs.Values.{is_secret, join, over_one, blurred, narrow, seen, val};
ghost use Rattle.flow_rule.specs.Values.{kept_val, put_val, join_each, flags_in};
ghost use Rattle.flow_check.specs.internal.Programs.{domain_of};
ghost use Rattle.flow_rule.specs.Does.{half};
ghost use Rattle.flow_check.specs.internal.Carries.{IsCarry};
ghost use Rattle.flow_rule.specs.declared.AbstractState.{AbstractState};
ghost use Rattle.flow_rule.specs.Iterations.{join_states, join_all};
ghost use Rattle.flow_check.specs.internal.Weights.{weight_all, weight_state};
ghost use Rattle.flow_check.specs.internal.Summaries.{blank_state, laid, overlay};
ghost use Rattle.flow_rule.specs.Absorbs.{Absorbs};

use crate::program::Flags;
use flow_rule::{AbstractState, Val};
use sm_words::{Width, status};

/// Whether it is Secret.
pub fn is_secret(value: Val) -> bool
    ensures { result ≡ is_secret value }
{
    value == Val::Secret
}

/// What is known where either may stand.
pub fn join(a: Val, b: Val) -> Val
    ensures { result ≡ join a b }
{
    if a == b { a } else { blurred_both(a, b) }
}

/// Secret or Public.
pub fn blurred(value: Val) -> Val
    ensures { result ≡ blurred (value ∷ []) }
{
    if is_secret(value) {
        Val::Secret
    } else {
        Val::Public
    }
}

/// What is told by two values that are not both Known: Secret where one is, else Public.
pub fn blurred_both(a: Val, b: Val) -> Val
    ensures { result ≡ blurred (a ∷ b ∷ []) }
{
    if is_secret(a) || is_secret(b) {
        Val::Secret
    } else {
        Val::Public
    }
}

/// What is told by three values that are not all Known: Secret where one is, else Public.
pub fn blurred_all(a: Val, b: Val, c: Val) -> Val
    ensures { result ≡ blurred (a ∷ b ∷ c ∷ []) }
{
    if is_secret(a) || is_secret(b) || is_secret(c) {
        Val::Secret
    } else {
        Val::Public
    }
}

/// The sum of a Known value and a number, and else what is told of it.
pub fn plus(value: Val, by: u16) -> Val
    ensures { result ≡ over_one (λ v. add16 v by) value }
{
    match value {
        Val::Known(v) => Val::Known(v.wrapping_add(by)),
        _ => blurred(value),
    }
}

/// A value of this width: a word keeps Away.
pub fn narrow(width: Width, value: Val) -> Val
    ensures { result ≡ narrow width value }
{
    match (width, value) {
        (Width::Word, _) => value,
        (Width::Byte, Val::Known(v)) => Val::Known(v % 256),
        (Width::Byte, _) => blurred(value),
    }
}

/// The byte of a word that stands at this address.
pub fn half(addr: u16, word: Val) -> Val
    ensures { result ≡ over_one (half addr) word }
{
    match word {
        Val::Known(w) => Val::Known(if addr % 2 == 0 { w % 256 } else { w / 256 }),
        _ => blurred(word),
    }
}

/// The carry, as the flags' value has it.
pub fn carry(flags: Val) -> Val
    ensures exact { result ≡ over_one (bit 1) flags }
    ensures small { IsCarry result }
{
    match flags {
        Val::Known(v) => Val::Known(v % 2),
        _ => blurred(flags),
    }
}

/// What is known of each register, by its number: PC's value is the program point's address, SR's is the flags'.
pub type Core = [Val; 16];

/// What is known of each word of the data, as far as a labelling knows of them.
pub type Words = [Val; 256];

/// The four flags of a status word.
fn flags_in(sr: u16) -> u16
    ensures { result ≡ flags_in sr }
{
    sr % status::GIE + status::OVERFLOW * (sr / status::OVERFLOW % 2)
}

/// What SR keeps of a value.
pub fn held(flags: Flags, value: Val) -> Val
    ensures { result ≡ (domain_of flags).held value }
{
    match (flags, value) {
        (Flags::Followed, Val::Known(sr)) => Val::Known(flags_in(sr)),
        _ => blurred(value),
    }
}

/// The flags once all of them are 0.
pub fn cleared(flags: Flags) -> Val
    ensures { result ≡ (domain_of flags).cleared }
{
    match flags {
        Flags::Blurred => Val::Public,
        Flags::Followed => Val::Known(0),
    }
}

/// Writes SR, which keeps the flags alone.
pub fn put_flags(flags: Flags, core: &mut Core, value: Val)
    ensures { core.new ≡ slice_set core.old 2 ((domain_of flags).held value) }
{
    core[2] = held(flags, value);
}

/// What a register keeps of a value.
fn kept(n: u8, value: Val) -> Val
    ensures { result ≡ kept_val n value }
{
    match n {
        2 => blurred(value),
        3 => Val::Known(0),
        0 | 1 => even(value),
        _ => value,
    }
}

/// What PC and SP keep of a value.
fn even(value: Val) -> Val
    ensures { result ≡ kept_val 0 value }
{
    match value {
        Val::Known(v) => Val::Known(v - v % 2),
        _ => value,
    }
}

/// What an operand sees of a register: of SR no more than whether it is equal in both runs.
pub fn seen(core: &Core, n: u8) -> Val
    ensures { result ≡ seen core.now n }
{
    if n == 2 {
        blurred(get(core, 2))
    } else {
        get(core, n)
    }
}

/// What is known of a register.
pub fn get(core: &Core, n: u8) -> Val
    ensures { result ≡ val core.now n }
{
    match core.get(usize::from(n)) {
        Some(value) => *value,
        None => Val::Secret,
    }
}

/// Writes a register.
pub fn put(core: &mut Core, n: u8, value: Val)
    ensures written { core.new ≡ put_val core.old n value }
{
    let index = usize::from(n);
    if index < 16 {
        core[index] = kept(n, value);
    }
}

/// Joins a value to its own, and tells whether it changed.
#[tactic(auto, using(crate::proofs::Joins::join_step, crate::proofs::Joins::join_stays, crate::proofs::Joins::set_same, crate::proofs::Weights::set_up, crate::proofs::Weights::set_rises))]
fn join_at(into: &mut [Val], from: &[Val], i: usize) -> bool
    requires here { i < length into.old }
    requires alike { length into.old ≡ length from.now }
    ensures length { length into.new ≡ length into.old }
    ensures step { take i into.old ++ join_each (drop i into.old) (drop i from.now)
        ≡ take (suc i) into.new ++ join_each (drop (suc i) into.new) (drop (suc i) from.now) }
    ensures same { result ≡ false → into.new ≡ into.old }
    ensures above { weight_all into.old ≤ weight_all into.new }
    ensures rises { result ≡ true → weight_all into.old < weight_all into.new }
{
    let old = into[i];
    let other = from[i];
    if old == other {
        return false;
    }
    let new = join(old, other);
    into[i] = new;
    new != old
}

/// Joins each of these values to its own, and tells whether one changed.
#[tactic(auto, using(crate::proofs::Joins::join_end))]
fn join_all(into: &mut [Val], from: &[Val]) -> bool
    requires { length into.old ≡ length from.now }
    ensures joined { into.new ≡ join_each into.old from.now }
    ensures same { result ≡ false → into.new ≡ into.old }
    ensures above { weight_all into.old ≤ weight_all into.new }
    ensures rises { result ≡ true → weight_all into.old < weight_all into.new }
{
    let mut changed = false;
    for i in 0..into.len() {
        if join_at(into, from, i) {
            changed = true;
        }
    }
    changed
}

/// Joins a state to another, and tells whether it changed.
pub fn join_states(into: &mut AbstractState, from: &AbstractState) -> bool
    ensures joined { into.new ≡ join_states into.old from.now }
    ensures same { result ≡ false → into.new ≡ into.old }
    ensures rises { result ≡ true → weight_state into.old < weight_state (join_states into.old from.now) }
{
    let core = join_all(&mut into.core, &from.core);
    let words = join_all(&mut into.words, &from.words);
    core || words
}

/// Whether joining a state to another changes nothing.
pub fn subsumes(top: &AbstractState, state: &AbstractState) -> bool
    ensures { result ≡ true → Absorbs top.now state.now }
{
    let mut joined = *top;
    !join_states(&mut joined, state)
}

/// A value, or what is seen through it where it is Public.
fn laid(told: Val, value: Val) -> Val
    ensures { result ≡ laid told value }
{
    if told == Val::Public { value } else { told }
}

/// Writes a value, unless it is Public.
#[tactic(auto, using(crate::proofs::Subsuming::overlay_step))]
fn overlay_at(into: &mut [Val], told: &[Val], i: usize)
    requires here { i < length into.old }
    requires alike { length told.now ≡ length into.old }
    ensures length { length into.new ≡ length into.old }
    ensures step { take i into.old ++ overlay (drop i told.now) (drop i into.old)
        ≡ take (suc i) into.new ++ overlay (drop (suc i) told.now) (drop (suc i) into.new) }
{
    into[i] = laid(told[i], into[i]);
}

/// Writes the values that are not Public.
#[tactic(auto, using(crate::proofs::Subsuming::overlay_end))]
fn overlay(into: &mut [Val], told: &[Val])
    requires { length told.now ≡ length into.old }
    ensures { into.new ≡ overlay told.now into.old }
{
    for i in 0..into.len() {
        overlay_at(into, told, i);
    }
}

/// Writes what the arms of a branch wrote.
pub fn overlay_state(state: &mut AbstractState, told: &AbstractState)
    ensures laid { state.new ≡ record {
      core = overlay told.now.core state.old.core;
      words = overlay told.now.words state.old.words;
    } }
    ensures core { length state.old.core ≡ 16 }
    ensures words { length state.old.words ≡ 256 }
{
    overlay(&mut state.core, &told.core);
    overlay(&mut state.words, &told.words);
}

/// A state in which nothing is written.
pub fn blank_state() -> AbstractState
    ensures { result ≡ blank_state }
{
    AbstractState {
        core: [Val::Public; 16],
        words: [Val::Public; 256],
    }
}
