//! The written machine: the states and cycles of the microcontroller, what the outside sees of them, its
//! trace, and which images are peers. Definitions alone; the board is proved to be this machine.
#![tactic(auto)]

/// Whose data, registers and frames are not looked at.
#[derive(Clone, Copy, Debug, PartialEq, Eq)]
pub enum Hidden {
    /// Every module's.
    All,
    /// This module's alone; all others count as outside.
    Only(u16),
}

/// One line of a script for a running machine.
#[derive(Clone, Copy, Debug, PartialEq, Eq)]
pub enum ScriptLine {
    /// So many cycles.
    Go(u32),
    /// Cycles until the outside is about to begin the instruction at `addr`, at most `limit`.
    Until { addr: u16, limit: u32 },
    /// Shows the registers, where no module is active.
    Regs,
    /// Shows `count` bytes from `addr`, where none of them is in a module's data.
    Mem { addr: u16, count: u16 },
    /// Marks this moment, to go back to.
    Mark,
    /// Back to the mark of this number, which drops the marks after it.
    Back(u16),
    /// To the last moment, from mark `k` on, at which the outside was about to begin the instruction at `addr`.
    Last { addr: u16, k: u16 },
}
