//! Tables of pages of 256 bytes. Tables share a page until one of them is written.
#![tactic(auto)]

mod pool;
mod store;

pub use pool::{Full, NoMemory, Pool};
