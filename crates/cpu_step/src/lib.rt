//! One instruction: its memory accesses in order, and its effect through any port.
//!
//! The rules are those of the MSP430x1xx Family User's Guide SLAU049, sections 3.3 and 3.4.
#![tactic(auto)]

mod accesses;
mod doing;
mod effect;
pub mod laws;
mod operand;
mod port;
mod result;
mod step;

pub use accesses::{add_plan, are_aligned, places, plan, reads_destination, writes_destination};
pub use pc_access::{Access, Kind};
pub use port::Port;
pub use result::{Computed, one_result, two_result};
pub use step::execute;
