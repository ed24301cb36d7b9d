//! What the programs have in common above their files: the words of a call and their values, what a command is, and how
//! a call ends.
#![tactic(auto)]

mod answering;
mod calls;
mod ids;
mod image_runs;
mod objects;
mod reading;
mod values;
mod verdicts;
mod words;

pub use answering::Answering;
pub use calls::{end_call, tell};
pub use ids::id_of;
pub use image_runs::{ImageRun, RunText};
pub use objects::{ObjectsCommand, ObjectsText};
pub use reading::{Reading, read};
pub use values::{file_named, read_cycles};
pub use verdicts::{put_verdict, text_of};
pub use words::values_of;
