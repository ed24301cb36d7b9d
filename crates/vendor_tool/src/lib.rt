//! What a vendor sends to a machine, and how its replies are judged.
//!
//! A challenge is a nonce that is sent over the serial line from a cycle on, one byte each 100 cycles. The machine is
//! to answer each with the tag of the nonce under the key of a module. The bytes that it sent are read off its trace.
#![tactic(auto)]

ghost use Rattle.vendor_tool.specs.Challenges.{AreFew, AreChallenges, AreApart};

pub mod laws;
mod reading;
mod replies;
mod reporting;
mod schedule;
mod trace_line;

pub use reading::read_challenges;
pub use replies::read_replies;
pub use reporting::report;
pub use schedule::schedule_text;

/// The bytes of a nonce.
pub const NONCE_LENGTH: usize = 16;

// What the rules say of them: a changed number is refused here.
const _: () = prove!(NONCE_LENGTH == 16);

/// The last cycle of at most seventeen decimal digits.
pub const MAX_CYCLE: u64 = 99_999_999_999_999_999;

/// There are at most so many challenges.
pub const MAX_CHALLENGES: u64 = 4_096;

/// The cycles from one byte of a nonce to the next.
pub const BYTE_STEP: u64 = 100;

/// A challenge comes at least so many cycles after the one before: those of a whole nonce.
pub const NONCE_CYCLES: u64 = 1_600;

/// A nonce, and the cycle in which its first byte is received.
#[derive(Clone, Copy, Debug, PartialEq, Eq)]
pub struct Challenge {
    pub cycle: u64,
    pub nonce: [u8; NONCE_LENGTH],
}

/// At most 4,096 challenges in the order of their cycles, with room for a whole nonce before the next.
#[derive(Debug, Drop)]
pub struct Challenges {
    pub list: Vec<Challenge>,
    ghost few: { AreFew list.items },
    ghost challenges: { AreChallenges list.items },
    ghost apart: { AreApart list.items },
}

/// Why a text is no list of challenges.
#[derive(Clone, Copy, Debug, PartialEq, Eq)]
pub enum ChallengeFault {
    /// There is a line 4,097.
    TooMany,
    /// Line `n`, counted from 1, is no cycle and nonce.
    Line { n: u64 },
    /// The cycle of line `n` is not yet 1,600 past that of the line before.
    NotRising { n: u64 },
    /// Memory ran out.
    NoMemory,
}

/// Why a text is no whole trace.
#[derive(Clone, Copy, Debug, PartialEq, Eq)]
pub enum TraceFault {
    /// Line `n`, counted from 1, has none of a trace's forms, lacks its LF, or follows the end line.
    Line { n: u64 },
    /// There is no end line.
    NoEnd,
    /// Memory ran out.
    NoMemory,
}

/// What the replies say of a challenge.
#[derive(Clone, Copy, Debug, PartialEq, Eq)]
pub enum Judgement {
    /// The bytes in its place are the tag of its nonce.
    Genuine,
    /// They are other bytes.
    Wrong,
    /// The replies end before.
    Missing,
}
