//! The padding of an interrupted module, and the case that a cycle ends in.
#![tactic(auto)]

ghost use Rattle.std.specs.Prelude.{◌≡◌, ◌-◌, ◌<◌};
ghost use Rattle.irq_padding.specs.Padding.{padding, after_steps};

use reg_backup::{After, Phase};

mod turn;

pub use turn::{Turn, choose};

/// The cycles of padding that follow the cycle in which an interrupt of a module is accepted.
pub const PADDING: u8 = 11;

/// The cycles that an interrupt of the outside takes after the one in which it arrives.
pub const ARRIVAL: u32 = 5;

/// The cycles that RETI takes after its first where a module is to go on.
pub const RESUMPTION: u32 = 4;

// What the rules say of them: a changed number is refused here.
const _: () = prove!(ARRIVAL == 5 && PADDING == 11 && RESUMPTION == 4);

/// The phase in which the machine is once an interrupt of a module was accepted.
pub fn arrive() -> Phase
    ensures phase { result ≡ Phase.Pad 11 }
{
    Phase::Pad { left: PADDING }
}

/// The phase, and what is settled after it, once one of the `left` cycles of padding has passed. With
/// none left the handler starts.
pub fn pad_step(left: u8) -> (Phase, After)
    ensures padding { result ≡ padding (left - 1) }
{
    pad_by(left, 1)
}

/// The same once `n` of the `left` cycles of padding have passed.
pub fn pad_by(left: u8, n: u8) -> (Phase, After)
    requires some { 0 < n }
    ensures stepped { result ≡ after_steps n (Phase.Pad left, After.Next) }
    ensures padding { result ≡ padding (left - n) }
{
    if n < left {
        (Phase::Pad { left: left - n }, After::Next)
    } else {
        (Phase::Run { rest: 0 }, After::Handler)
    }
}
