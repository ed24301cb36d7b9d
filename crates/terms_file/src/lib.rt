//! Terms of a module: in which registers it may answer where a call ends, and which words of its data are public.
//!
//! A text has lines `answer rN`, and then lines `public AAAA`. N is the decimal of a register that may be an answer (r2 is
//! the flags), AAAA the address of a data word in four lower-case hexadecimal digits. Both rise from line to line. The last
//! line may lack its LF, and the empty text has no terms.
#![tactic(auto)]

pub mod laws;
mod lists;
mod reading;
mod writing;

pub use lists::{answers, public};
pub use reading::read_terms;
pub use writing::terms_text;

/// What one line says.
#[derive(Clone, Copy, Debug, PartialEq, Eq)]
pub enum Term {
    /// The register of this number may hold anything where a call ends.
    Answer(u8),
    /// The data word at this address is public.
    Public(u16),
}

/// Terms in the order of their lines.
#[derive(Debug, Drop)]
pub struct Terms {
    pub list: Vec<Term>,
}

/// Why a text is no terms.
#[derive(Clone, Copy, Debug, PartialEq, Eq)]
pub enum TermsFault {
    /// There is a line 271.
    TooMany,
    /// Line `n`, counted from 1, has none of the forms.
    Line { n: u64 },
    /// Line `n` does not stand behind the line before: the register or the address is not above it, or it is an answer behind
    /// a public word.
    NotRising { n: u64 },
    /// An allocation failed.
    NoMemory,
}
