//! The map of linked objects: a text that says where modules, sections, commons, entries, vectors and symbols stand.
#![tactic(auto)]

mod lines;
mod modules;
mod parts;
mod symbols;
mod text;

pub use text::map_of;
