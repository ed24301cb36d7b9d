//! Tests of the lowest crates: texts, words, modules, rights, keys, schedules, frames, padding and lines of traces.
#![tactic(auto)]

#[cfg(test)]
mod frames;
#[cfg(test)]
mod keys;
#[cfg(test)]
mod lines_and_numbers;
#[cfg(test)]
mod modules;
#[cfg(test)]
mod padding;
#[cfg(test)]
mod rights;
#[cfg(test)]
mod schedules;
#[cfg(test)]
mod traces;
#[cfg(test)]
mod words;
