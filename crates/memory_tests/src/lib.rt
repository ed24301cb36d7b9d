//! Tests of the memory and of the devices.
#![tactic(auto)]

#[cfg(test)]
mod memories;
#[cfg(test)]
mod plain;
#[cfg(test)]
mod pools;
#[cfg(test)]
mod timer_and_serial;
