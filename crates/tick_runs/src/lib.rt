//! Random programs, each run as a whole, in two parts and cycle by cycle: always the same text.
#![tactic(auto)]

#[cfg(test)]
mod draws;
#[cfg(test)]
mod programs;
#[cfg(test)]
mod tests;
