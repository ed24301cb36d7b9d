//! Worked sweeps: the channel through the latency of interrupts, of plain code and of a module.
#![tactic(auto)]

#[cfg(test)]
mod images;
#[cfg(test)]
mod tests;
