//! What is checked.

ghost use Rattle.std.specs.Prelude.{◌≤◌};
ghost use Rattle.std.specs.Option.{ForSome};
ghost use Rattle.flow_check.specs.internal.Stubs.{IsStub};

use arm_balance::Arm;
use mod_layout::Module;

/// What is kept of the flags.
#[derive(Clone, Copy)]
pub enum Flags {
    /// Whether they are equal in both runs.
    Blurred,
    /// Which they are, where all that makes them is known.
    Followed,
}

/// A module with its text, the certificates of its balanced branches, and the terms under which it is checked.
#[derive(Drop)]
pub struct Program<'a> {
    pub module: &'a Module,
    pub text: &'a [u8],
    /// The number of the entries, where the text begins with its stub.
    pub stub: Option<u16>,
    pub arms: &'a [Arm],
    pub flags: Flags,
    /// The registers that may hold anything where a call ends, by their numbers, 2 for the flags.
    pub answers: &'a [u8],
    /// The addresses of the data words that are public where a call begins, and have to be so again where it leaves.
    pub public: &'a [u16],
    pub ghost exact: { IsStub module.now text.now stub },
    pub ghost few: { ForSome stub (λ n. n ≤ 64) },
}
