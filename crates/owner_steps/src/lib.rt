//! The owner's view of a run: the trace, and among its lines each instruction with what it reads and writes, and the
//! registers that change. It hides nothing.
#![tactic(auto)]

pub mod laws;
mod showing;
mod stepping;
mod touching;
mod watching;

pub use stepping::steps;
