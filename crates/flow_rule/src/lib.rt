//! The rule of flow over a module's text: every text has one verdict.
#![tactic(auto)]

ghost use Rattle.flow_rule.specs.Absorbs.{ArmsRest};
ghost use Rattle.flow_rule.specs.Laws.{SomeVerdict, OneVerdict};

use pc_access::Kind;
use sm_words::Width;

/// What is known of a word in both runs.
#[derive(Clone, Copy, Debug, Default, PartialEq, Eq)]
pub enum Val {
    /// This number.
    Known(u16),
    /// A value equal in both, a place outside the text.
    Away,
    /// A value equal in both.
    Public,
    /// Anything.
    #[default]
    Secret,
}

/// An access, and what is known of its address.
#[derive(Clone, Copy, Debug, Default, PartialEq, Eq)]
pub struct Reach {
    pub kind: Kind,
    pub addr: Val,
    pub width: Width,
}

/// What is known of what an operation gives: its value, and the flags, where it sets them.
#[derive(Clone, Copy, Debug, PartialEq, Eq)]
pub struct Told {
    pub value: Val,
    pub flags: Option<Val>,
}

/// What is known at a program point: of each register by its number (PC's value is the point's address, SR's is the
/// flags'), and of the first 256 words of the data. Of other data nothing is known.
#[derive(Clone, Copy, Debug, PartialEq, Eq)]
pub struct AbstractState {
    pub core: [Val; 16],
    pub words: [Val; 256],
}

/// Why a text is refused, by its number from 1.
#[derive(Clone, Copy, Debug, PartialEq, Eq)]
pub enum Reason {
    SecretBranch,
    SecretAddress,
    OutsideAccess,
    SecretAtExit,
    UnknownTarget,
    Illegal,
    Unit,
    TooMany,
    Arm,
    ArmTime,
    DataAtExit,
}

/// Whether a text is even for every two data.
#[derive(Clone, Copy, Debug, PartialEq, Eq)]
pub enum Verdict {
    Yes,
    No {
        addr: u16,
        reason: Reason,
        value: u16,
    },
}

/// How a text is unrolled, with the steps that this took.
#[derive(Clone, Copy, Debug, PartialEq, Eq)]
pub enum Unrolling {
    Yes {
        steps: u32,
    },
    /// The first violation on the way.
    No {
        addr: u16,
        reason: Reason,
        value: u16,
    },
    /// Steps or room ended before this address.
    Unfinished {
        addr: u16,
        steps: u32,
    },
}

/// Where a branch has no violation under a state, its arms do the same under every state that this one absorbs.
pub fn arms_rest()
    ensures rest { ArmsRest }
{}

/// Every text has one verdict, whatever the module, the terms and the certificates.
pub fn one_verdict()
    ensures some { SomeVerdict }
    ensures one { OneVerdict }
{}
