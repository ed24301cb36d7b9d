//! A pulse in each cycle of a span, for two images: what the traces of their runs say of it, and whether they differ.
#![tactic(auto)]

mod columns;
pub mod laws;
mod row;
mod run;
mod sweeping;

use std::alloc::AllocError;
pub use sweeping::sweep;

/// Want of memory.
pub type NoMemory = AllocError;

/// Runs with one pulse each: a line goes up in a cycle, and nothing else happens outside. There is none where `to` is
/// below `from`.
#[derive(Clone, Copy, Debug, PartialEq, Eq)]
pub struct Pulses {
    /// The line, from 0 to 3.
    pub line: u8,
    /// The cycle of the first run's pulse.
    pub from: u64,
    /// The cycle of the last run's pulse.
    pub to: u64,
    /// The cycles of each run.
    pub cycles: u64,
}

/// The text of a sweep, and in how many of its rows the traces differ.
#[derive(Debug, Drop)]
pub struct Swept {
    pub text: Vec<u8>,
    pub different: u64,
}
