//! What scripts do to a running machine, and write.
#![tactic(auto)]

mod commands;
mod playing;
mod showing;

pub use playing::play;
