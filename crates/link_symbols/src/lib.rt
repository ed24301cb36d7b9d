//! What has to be placed, and what the names and symbols of objects stand for.
#![tactic(auto)]

mod check;
mod commons;
mod fault;
mod item;
mod names;
mod resolved;
mod symbol;

pub use fault::{LinkFault, Region};
pub use item::{Item, Part};
pub use resolved::{Resolved, resolve};
pub use symbol::Meaning;
