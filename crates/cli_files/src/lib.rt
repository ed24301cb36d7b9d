//! What the command-line programs share: files read whole and examined, refusals, their lines and statuses.
#![tactic(auto)]

mod answers;
mod faults;
mod lines;
mod linking;
mod loading;

pub use answers::{FileFault, NO_MEMORY, Name, Refusal, Refused, Status, USAGE, status_after};
pub use lines::{put_named, put_refusal};
pub use linking::{linked_image, shown_byte, unlinked};
pub use loading::{
    Chosen, Content, Playable, Replies, load, load_objects, load_schedule, load_with,
};
