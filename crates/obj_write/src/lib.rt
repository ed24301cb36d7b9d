//! Objects as files: the parts of an object to an ELF32 file of the MSP430.
#![tactic(auto)]

mod bytes;
mod object;
mod relocations;
mod sections;
mod strings;
mod symbols;

pub use object::write_object;
