//! Tests of the texts that a person writes: layouts, images, sources in assembly.
#![tactic(auto)]

#[cfg(test)]
mod images;
#[cfg(test)]
mod layouts;
#[cfg(test)]
mod sources;
