//! The events of a cycle and their lines in the outside trace.
#![tactic(auto)]

pub mod laws;
mod text;

use pc_access::Stop;
use sm_words::Core;
pub use text::{end_line, line};

/// An event of a cycle. The events of one cycle stand in the order of its steps.
#[derive(Clone, Copy, Debug, Default, PartialEq, Eq)]
pub enum Event {
    /// The module of the newest frame resumes.
    Resume { module: u16 },
    /// A module unprotected itself: its data are cleared and it left the table.
    Close { module: u16 },
    /// The padding is over, and the handler begins.
    Handler { pc: u16 },
    /// The active module was left: PC is outside its text.
    Leave { module: u16, pc: u16 },
    /// An interrupt put a module into a frame.
    Hide { module: u16, vector: u8 },
    /// An interrupt of the outside.
    Irq { vector: u8 },
    /// A module becomes active, called by `from`, or by the outside where that is 0.
    Enter { module: u16, from: u16 },
    /// RETI that does not lead to a resumption.
    #[default]
    Reti,
    /// A module was made.
    Protect { module: u16 },
    /// The serial device sent a byte.
    Out { byte: u8 },
    /// The machine stopped.
    Stop(Stop),
}

/// The state of a machine at the end of a run, as far as it may be told.
#[derive(Clone, Copy, Debug, PartialEq, Eq)]
pub enum EndState {
    /// The machine stopped.
    Stopped,
    /// This module is active; its registers are not told.
    Inside(u16),
    /// No module is active.
    Outside(Core),
}
