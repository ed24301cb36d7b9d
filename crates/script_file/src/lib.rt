//! Scripts for a running machine, as text.
//!
//! A text has lines `go N`, `until AAAA N`, `regs`, `mem AAAA N`, `mark`, `back K` and `last AAAA K`. AAAA is four
//! lower-case hexadecimal digits, N and K are decimals without leading zero. The last line may lack its LF.
#![tactic(auto)]

ghost use Rattle.std.specs.Prelude.{All};
ghost use Rattle.script_file.specs.Bounds.{IsBounded};

pub mod laws;
mod line;
mod reading;

pub use reading::read_script;
pub use written_machine::ScriptLine;

/// The most cycles of one line.
pub const MAX_CYCLES: u64 = 1_000_000_000;

/// The most bytes that one line shows.
pub const MAX_BYTES: u64 = 256;

/// The end of memory, one past its last address.
pub const MEMORY_END: u64 = 0x10000;

/// The greatest number of a mark that a line names.
pub const MAX_MARK: u64 = 15;

// What the rules say of them: a changed number is refused here.
const _: () = prove!(MAX_BYTES == 256 && MAX_CYCLES == 1_000_000_000 && MAX_MARK == 15);

const _: () = prove!(MEMORY_END == 0x10000);

/// Lines to be done in order, each with its numbers in their bounds.
#[derive(Debug, Drop)]
pub struct Script {
    pub lines: Vec<ScriptLine>,
    ghost bounds: { All IsBounded lines.items },
}

/// Why a text is not a script.
#[derive(Clone, Copy, Debug, PartialEq, Eq)]
pub enum ScriptFault {
    /// Line `n`, counted from 1, has none of the forms.
    Line { n: u64 },
    /// A number of line `n` is out of bounds.
    Number { n: u64 },
    /// An allocation failed.
    NoMemory,
}
