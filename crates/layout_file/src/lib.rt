//! Reads a layout: where the parts of an image go, in a TOML document.
#![tactic(auto)]

mod clash;
mod fault;
mod laws;
mod layout;
mod parts;
mod read;
mod rows;

pub use fault::{Key, LayoutFault, Spot};
pub use laws::{layouts_are_sound, overlaps_are_first};
pub use layout::Layout;
pub use mod_layout::Section;
pub use parts::{ModuleSpec, VectorName};
pub use read::read_layout;
