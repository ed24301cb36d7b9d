//! ELF32 objects of the MSP430: their sections, symbols and relocations, as spans of the file.
#![tactic(auto)]

mod bytes;
mod fault;
mod header;
mod names;
mod object;
mod passes;
mod relocation;
mod section;
mod symbol;

pub use fault::ElfFault;
pub use object::{Binding, Home, Object, Relocation, SectionHead, Span, Symbol, parse};
