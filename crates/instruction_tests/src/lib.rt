//! Tests of single instructions through a memory that records its calls.
#![tactic(auto)]

#[cfg(test)]
mod cycles;
#[cfg(test)]
mod decoding;
#[cfg(test)]
mod instructions;
#[cfg(test)]
mod steps;
#[cfg(test)]
mod units;
