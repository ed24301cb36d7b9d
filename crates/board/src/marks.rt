//! Marks of a board, and the ways back to them.

ghost use Rattle.std.specs.Prelude.{◌≡◌, ◌≤◌, ◌<◌, length, IfOk, IfErr, OnOk, OnErr, None, Some};
ghost use Rattle.written_machine.specs.Marks.{marked, back_to, last_at};

use crate::Board;

/// All marks that the board was made with are live.
#[derive(Clone, Copy, Debug, PartialEq, Eq)]
pub struct MarksFull {
    /// Their number.
    pub marks: u16,
}

/// There is no such mark.
#[derive(Clone, Copy, Debug, PartialEq, Eq)]
pub struct NoMark {
    /// The number that was asked for.
    pub k: u16,
}

/// Why a board does not go back to an address; the first that applies is answered.
#[derive(Clone, Copy, Debug, PartialEq, Eq)]
pub enum LastFault {
    /// There is no mark of this number.
    NoMark { k: u16 },
    /// In no cycle from the mark's on, and before the present one, the outside stood there.
    NotThere { addr: u16 },
}

impl Board {
    ghost use Rattle.board.specs.Faults.{IsLastFault};

    /// Marks the present state, and gives the number of marks before. Refused exactly where all marks that the board
    /// was made with are live.
    pub fn mark(&mut self) -> Result<u16, MarksFull>
        ensures marked { OnOk result (marked self.old ≡ Some self.new) }
        ensures number { IfOk result (λ k. k ≡ length self.old.marks) }
        ensures full { IfErr result (λ full. (marked self.old ≡ None) × (full.marks ≡ self.old.most)) }
        ensures unchanged { OnErr result (self.new ≡ self.old) }
        ensures clock { self.new.present.cycle ≡ self.old.present.cycle }
    {
        match self.machine.port.memory.mark() {
            Err(_) => Err(MarksFull {
                marks: self.machine.port.memory.marks(),
            }),
            Ok(number) => {
                self.moments.push(self.machine.moment()).unwrap();
                Ok(number)
            }
        }
    }

    /// Goes back to mark `k`, and drops the marks above it. The board is then what it was at that mark, and so is all
    /// that it does from there on.
    pub fn back(&mut self, k: u16) -> Result<(), NoMark>
        ensures back { OnOk result (back_to k self.old ≡ Some self.new) }
        ensures none { IfErr result (λ none. (back_to k self.old ≡ None) × (none.k ≡ k)) }
        ensures unchanged { OnErr result (self.new ≡ self.old) }
        ensures clock { self.new.present.cycle ≤ self.old.present.cycle }
    {
        if k >= self.machine.port.memory.marks() {
            return Err(NoMark { k });
        }
        let mark = usize::from(k);
        self.machine.back(k, &self.moments[mark]);
        self.moments.truncate(mark + 1);
        Ok(())
    }

    /// Goes back to the last cycle from mark `k`'s on, and before the present one, at which the outside stood at
    /// `addr`, drops the marks above `k`, and gives that cycle. The cycles from the mark on are done again, and tell
    /// nothing.
    pub fn last(&mut self, addr: u16, k: u16) -> Result<u64, LastFault>
        ensures last { OnOk result (last_at addr k self.old ≡ Some self.new) }
        ensures cycle { IfOk result (λ cycle. cycle ≡ self.new.present.cycle) }
        ensures fault { IfErr result (IsLastFault addr k self.old) }
        ensures unchanged { OnErr result (self.new ≡ self.old) }
        ensures clock { self.new.present.cycle ≤ self.old.present.cycle }
    {
        if k >= self.machine.port.memory.marks() {
            return Err(LastFault::NoMark { k });
        }
        let moment = &self.moments[usize::from(k)];
        match self.machine.last_since(addr, k, moment) {
            None => Err(LastFault::NotThere { addr }),
            Some(cycle) => {
                self.machine.return_to(cycle, k, moment);
                self.moments.truncate(usize::from(k) + 1);
                Ok(cycle)
            }
        }
    }
}
