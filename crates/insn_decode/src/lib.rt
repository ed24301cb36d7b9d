//! Instructions: the code table and their text.
//!
//! The table is that of the MSP430x1xx Family User's Guide SLAU049, section 3.4.
#![tactic(auto)]

mod decoder;
mod insn;
pub mod laws;
mod text;

pub use decoder::{decode, length};
pub use insn::{Condition, Insn, OneOp, Operand, TwoOp, UnitName};
pub use text::show;
