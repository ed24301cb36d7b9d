//! The case that a cycle ends in.

ghost use Rattle.std.specs.Prelude.{◌≡◌, ◌&&◌, ℕ, true, Option, is_some};
ghost use Rattle.irq_padding.specs.Turns.{turn_of, turn_kind};

use reg_backup::Phase;

/// What a cycle ends with, after what is due is settled.
#[derive(Clone, Copy, Debug, PartialEq, Eq)]
pub enum Turn {
    /// A cycle of padding passes.
    Pad,
    /// An interrupt arrives while a module is active.
    Inside,
    /// An interrupt arrives while no module is active.
    Outside,
    /// A cycle of the instruction that was begun passes.
    Wait,
    /// The machine sleeps.
    Sleep,
    /// An instruction begins.
    Begin,
}

/// The case that a cycle ends in: the first that fits.
///
/// `raised` says that a vector is raised and GIE is set, `room` that fewer than eight frames stand,
/// `inside` that a module is active, `asleep` that CPUOFF is set. An interrupt of a module arrives
/// whatever its rest is; one of the outside waits for the end of the instruction.
pub fn choose(phase: Phase, raised: bool, room: bool, inside: bool, asleep: bool) -> Turn
    ensures turn { (due active : Option ℕ) → is_some due ≡ (raised && room) → is_some active ≡ inside →
        result ≡ turn_kind (turn_of phase due active asleep) }
    ensures inside { result ≡ Turn.Inside → (raised && room && inside) ≡ true }
    ensures outside { result ≡ Turn.Outside → (raised && room) ≡ true }
{
    match phase {
        Phase::Pad { .. } => Turn::Pad,
        Phase::Run { .. } if raised && room && inside => Turn::Inside,
        Phase::Run { rest: 0 } if raised && room => Turn::Outside,
        Phase::Run { rest: 0 } if asleep && !inside => Turn::Sleep,
        Phase::Run { rest: 0 } => Turn::Begin,
        Phase::Run { .. } => Turn::Wait,
    }
}
