//! A module by itself: one call from its entry, with no devices, interrupts or padding.
#![tactic(auto)]

mod acting;
mod calling;
mod job;
mod next;
mod sections;
mod tagging;
mod units;

pub use calling::call;
use sm_words::Core;

/// An entry of a module: the registers, with PC at the start of its text, and the caller's id.
#[derive(Clone, Copy)]
pub struct Entry {
    pub core: Core,
    pub caller: u16,
}

/// How a call ends.
#[derive(Clone, Copy)]
pub enum Outcome {
    /// The module left its text, with these registers after so many cycles.
    Exit { core: Core, cycles: u64 },
    /// Its `unprotect` ran to its end.
    Closed { core: Core, cycles: u64 },
    /// After so many cycles comes an instruction that would stop the machine, would access a byte outside the two
    /// sections, or is protect, attest or id of address.
    Broken { cycles: u64 },
    /// The call has not ended within the limit.
    Running,
}
