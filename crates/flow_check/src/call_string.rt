//! Call strings: lists of at most eight return addresses.

ghost use Rattle.std.specs.Prelude.{◌≡◌, ◌≤◌, ◌<◌, ◌++◌, ◌∷◌, [], length, true, nat_eq, nat_lt, not};
ghost use Rattle.std.specs.Cmp.Lexicographic.{pointwise};
ghost use Rattle.sm_words.specs.Words.{nth};
ghost use Rattle.flow_rule.specs.CallStrings.{last_is, pop_call};
ghost use Rattle.flow_check.specs.internal.Carries.{is_number};
ghost use Rattle.flow_check.specs.internal.Points.{list_of};

use crate::transfer::first;
use flow_rule::Val;

/// The most return addresses that a program point has.
const MOST: usize = 8;

/// Return addresses, the newest last: the first so many of eight.
#[derive(Clone, Copy, Debug)]
pub struct CallString {
    addrs: [u16; 8],
    count: usize,
}

/// Whether a value is this number.
fn is_number(value: Val, addr: u16) -> bool
    ensures { result ≡ is_number value addr }
{
    match value {
        Val::Known(v) => v == addr,
        Val::Away | Val::Public | Val::Secret => false,
    }
}

impl CallString {
    /// No address.
    pub fn new() -> CallString
        ensures { list_of result ≡ [] }
    {
        CallString {
            addrs: [0; 8],
            count: 0,
        }
    }

    /// One address more, where there is room.
    pub fn push(&mut self, addr: u16) -> bool
        ensures taken { result ≡ not (nat_lt 7 (length (list_of self.old))) }
        ensures list { result ≡ true → list_of self.new ≡ list_of self.old ++ addr ∷ [] }
    {
        if self.count < MOST {
            self.addrs[self.count] = addr;
            self.count += 1;
            true
        } else {
            false
        }
    }

    /// The number of addresses.
    fn len(&self) -> usize
        ensures exact { result ≡ length (list_of self.now) }
        ensures few { result ≤ 8 }
    {
        if self.count < MOST { self.count } else { MOST }
    }

    /// Takes off the last address, and tells whether the first of these values is that.
    #[tactic(auto, using(crate::proofs::CallStrings::but_of, crate::proofs::CallStrings::last_of, crate::proofs::CallStrings::last_none, crate::proofs::CallStrings::but_none))]
    pub fn pop_is(&mut self, values: &[Val]) -> bool
        ensures is { result ≡ last_is (nth 0 values.now Val.Secret) (list_of self.old) }
        ensures list { list_of self.new ≡ pop_call (list_of self.old) }
    {
        let count = self.len();
        if count == 0 {
            return false;
        }
        let is = is_number(first(values), self.addrs[count - 1]);
        self.count = count - 1;
        is
    }

    /// The addresses, the newest last.
    pub fn as_slice(&self) -> &[u16]
        ensures list { result.now ≡ list_of self.now }
        ensures few { length result.now ≤ 8 }
    {
        &self.addrs[..self.len()]
    }

    /// Whether two call strings are the same.
    pub fn same(&self, other: &CallString) -> bool
        ensures { result ≡ pointwise nat_eq (list_of self.now) (list_of other.now) }
    {
        self.as_slice() == other.as_slice()
    }
}
