//! A line of a program's text: the statement that it writes, and the words of an instruction.
#![tactic(auto)]

mod encoding;
pub mod laws;
mod line;
mod operand;
mod statement;

pub use encoding::{jump_word, leading_word};
pub use line::statement_of;
pub use statement::{Field, SectionKind, Statement};

/// The most bytes of a name.
pub const MAX_NAME: usize = 64;

/// The most bytes of a section.
pub const MAX_SIZE: u32 = 65_534;

// What the rules say of them: a changed number is refused here.
const _: () = prove!(MAX_NAME == 64 && MAX_SIZE == 65_534);
