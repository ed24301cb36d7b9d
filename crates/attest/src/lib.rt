//! The unit instructions: they protect and unprotect modules, make and check tags, and tell ids.
#![tactic(auto)]

mod hash;
mod instruction;
mod memory;
mod rights;

pub use instruction::{BLOCK_CYCLES, SHORT_CYCLES, hmac_blocks, unit};
pub use rights::in_range;

/// The module on whose behalf an instruction runs.
#[derive(Clone, Copy, Debug, PartialEq, Eq)]
pub struct Who {
    /// The id of the active module; none outside.
    pub active: Option<u16>,
    /// The id of the module that called it, or 0.
    pub caller: u16,
}

/// The outcome of a unit instruction, beside its changes of core, memory and table.
#[derive(Clone, Copy, Debug, PartialEq, Eq)]
pub struct UnitDone {
    /// The cycles that it takes.
    pub cycles: u32,
    /// Whether the active module closes when they have passed.
    pub closing: bool,
    /// The id of the module that it made, or 0.
    pub made: u16,
}
