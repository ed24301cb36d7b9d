//! Assembler: from the text of a program to the sections, symbols and relocations of an object.
//!
//! A source is lines ended by LF, each a section, a label, a global name, a word, zeros, or an instruction.
#![tactic(auto)]

mod assembly;
mod emission;
pub mod laws;
mod names;
mod placing;
mod reading;
mod symbols;
mod unit;

pub use asm_line::{MAX_NAME, MAX_SIZE, SectionKind};
pub use assembly::assemble;
pub use unit::{AsmFault, AsmRelocation, AsmSection, AsmSymbol, AsmUnit};

/// The most bytes of a source.
pub const MAX_SOURCE: usize = 1_048_576;

/// The most sections of a source.
pub const MAX_SECTIONS: usize = 256;

/// The most labels of a source.
pub const MAX_LABELS: usize = 4_096;

/// The most symbols of a source, and the most relocations.
pub const MAX_ENTRIES: usize = 1_048_576;

// What the rules say of them: a changed number is refused here.
const _: () = prove!(MAX_LABELS == 4_096 && MAX_SECTIONS == 256);

const _: () = prove!(MAX_SOURCE == 1_048_576 && MAX_ENTRIES == 1_048_576);
