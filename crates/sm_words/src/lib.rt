//! The words of the processor: the sixteen registers, and the operations on bytes and words.
//!
//! The rules are those of the MSP430x1xx Family User's Guide SLAU049, sections 3.2 and 3.4.
#![tactic(auto)]

pub mod laws;
mod operations;
mod registers;
pub mod status;
mod width;

pub use operations::{add, and, dadd, rra, rrc, swpb, sxt, xor};
pub use registers::{CG, Core, PC, SP, SR};
pub use width::{Sum, Width};
