//! Program points: an address with the call string with which it is met.

ghost use Rattle.std.specs.Prelude.{◌≡◌};
ghost use Rattle.flow_rule.specs.Iterations.{same_point};
ghost use Rattle.flow_check.specs.internal.Points.{key_of, program_point};

use crate::call_string::CallString;
use arrayvec::ArrayVec;
use flow_rule::AbstractState;

/// A program point's address and then its return addresses.
pub type Key = ArrayVec<u16, 9>;

/// A program point with its state.
#[derive(Clone, Copy)]
pub struct Point {
    pub addr: u16,
    pub call_string: CallString,
    pub state: AbstractState,
}

impl Point {
    /// Whether two are the same program point.
    pub fn is_same(&self, other: &Point) -> bool
        ensures { result ≡ same_point (program_point self.now) (program_point other.now) }
    {
        self.addr == other.addr && self.call_string.same(&other.call_string)
    }

    /// Its address and return addresses.
    pub fn key(&self) -> Key
        ensures { result.items ≡ key_of (program_point self.now) }
    {
        let mut key = ArrayVec::new();
        key.push(self.addr);
        // There are at most eight.
        let _all_fit = key.try_extend_from_slice(self.call_string.as_slice());
        key
    }
}
