//! The second program, for who owns the code: parses the words, runs the command, writes its answer or its refusal.
#![tactic(auto)]

mod commands;
mod map;
mod public_words;
mod released;
mod steps;
mod sweep;
mod terms;
mod top;
mod under_terms;

pub use top::serve;
