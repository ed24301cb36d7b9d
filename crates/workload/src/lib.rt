//! A workload for measurements: an image whose one module is called again and again, and a schedule that interrupts it
//! at times drawn from a seed.
#![tactic(auto)]

mod draws;
mod program;
mod pulses;

pub use draws::next;
pub use program::image;
pub use pulses::schedule;
