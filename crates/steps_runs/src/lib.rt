//! Worked steps: code with a branch, plain and as a module, that an interrupt meets.
#![tactic(auto)]

#[cfg(test)]
mod tests;
