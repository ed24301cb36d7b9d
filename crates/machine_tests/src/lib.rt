//! Tests of the machine and of what stands around it: boards, scripts, calls of one module, streams, workloads, the vendor's answers.
#![tactic(auto)]

#[cfg(test)]
mod boards;
#[cfg(test)]
mod calls;
#[cfg(test)]
mod scripts;
#[cfg(test)]
mod streams;
#[cfg(test)]
mod vendors;
#[cfg(test)]
mod workloads;
