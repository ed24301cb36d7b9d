//! What is kept of a module while it is interrupted, and the frames that stand meanwhile.
#![tactic(auto)]

mod backup;
mod frames;

pub use backup::{After, Backup, Phase, resume, save};
pub use frames::{Frame, FrameKind, Frames, FramesFull, MOST_FRAMES};
