//! Balanced branches: certificates that say where both arms of a branch meet and how long each takes, and how an
//! arm goes on.
//!
//! The text of certificates has lines `AAAA JJJJ N`: the branch and the join in four lower-case hexadecimal digits, and
//! the cycles as a decimal without leading zero. The last line may lack its LF.
#![tactic(auto)]

ghost use Rattle.arm_balance.specs.Certificates.{BranchesRise};

mod certificates;
mod follow;
mod text;

pub use certificates::read_arms;
pub use follow::{arm_next, met_arm, target};
pub use text::{byte, met, word};

/// A certificate of a balanced branch: where both arms meet, and the cycles that each takes.
#[derive(Clone, Copy, Debug, PartialEq, Eq)]
pub struct Arm {
    /// The address of the conditional jump.
    pub branch: u16,
    /// The address at which both arms meet.
    pub join: u16,
    /// The cycles that each arm takes.
    pub cycles: u16,
}

/// Certificates, each for a branch above the one before.
#[derive(Drop)]
pub struct Arms {
    pub list: Vec<Arm>,
    ghost branches_rise: { BranchesRise list.items },
}

/// Why a text is no certificates.
#[derive(Clone, Copy, Debug, PartialEq, Eq)]
pub enum ArmsFault {
    /// There is a line 257.
    TooMany,
    /// Line `n`, counted from 1, has another form.
    Line { n: u64 },
    /// The branch of line `n` is not above that of the line before.
    NotRising { n: u64 },
    /// An allocation failed.
    NoMemory,
}
