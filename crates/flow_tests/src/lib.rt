//! Tests of the checker: worked verdicts, and certificates of arms.
#![tactic(auto)]

#[cfg(test)]
mod arms;
#[cfg(test)]
mod tests;
