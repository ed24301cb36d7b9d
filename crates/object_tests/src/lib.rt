//! Tests of the object files: read, linked, relocated, written.
#![tactic(auto)]

#[cfg(test)]
mod elf_files;
#[cfg(test)]
mod relocations;
#[cfg(test)]
mod stubs;
#[cfg(test)]
mod written_objects;
