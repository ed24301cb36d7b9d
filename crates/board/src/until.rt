//! A run to an address.

ghost use Rattle.std.specs.Prelude.{◌≡◌, ◌+◌, ◌≤◌, ◌^◌};
ghost use Rattle.written_machine.specs.Marks.{at_state};
ghost use Rattle.written_machine.specs.Passing.{Leads};
ghost use Rattle.written_machine.specs.Standing.{cycles_until};
ghost use Rattle.board.specs.Alike.{PeersRun};
ghost use Rattle.board.specs.Ran.{Runs};
ghost use Rattle.board.specs.internal.Ran.{StandsNotAt};

use crate::board::put_lines;
use crate::{Board, Ran};
use arrayvec::ArrayVec;
use sm_io::{Failed, Sink};

impl Board {
    /// Cycles until, before a cycle, the outside is about to begin the instruction at `addr`, at most so many, or fewer
    /// where it stops; with their lines. After `SinkFailed` the board stands after the cycle whose lines were refused,
    /// and they are not put again.
    pub fn run_until<S: Sink>(&mut self, addr: u16, most: u64, sink: &mut S) -> Ran
        requires number { self.old.present.cycle + most ≤ 2 ^ 62 }
        ensures ran { Runs S.taken S.faults S.sure (cycles_until addr self.old.present most)
            self.old.present self.new.present sink.old sink.new result }
        ensures number { self.new.present.cycle ≤ self.old.present.cycle + most }
        ensures marks { self.new ≡ at_state self.old self.new.present }

        // The lines are those of each image that differs in one confined module's data alone.
        ensures peers { PeersRun S.taken S.faults S.sure (cycles_until addr self.old.present most)
            self.old.present sink.old sink.new result }
    {
        isolation::texts();
        let mut events = ArrayVec::new();
        let mut left = most;
        while left > 0 {
            if self.stands_at(addr) {
                return self.ended();
            }
            if self.is_stopped() {
                return self.ended();
            }
            let cycle = self.machine.cycle;
            self.step(&mut events);
            match put_lines(sink, cycle, events.as_slice()) {
                Ok(()) => {}
                Err(Failed) => return Ran::SinkFailed,
            }
            left -= 1;
            left -= self.pass_apart(addr, left);
        }
        self.ended()
    }

    // Lets at most so many cycles pass in which nothing begins and nothing arrives, and before none of which it stands
    // at `addr`, and gives how many passed.
    fn pass_apart(&mut self, addr: u16, most: u64) -> u64
        requires { self.old.present.cycle + most ≤ 2 ^ 62 }
        ensures most { result ≤ most }
        ensures leads { Leads result self.old.present self.new.present }
        ensures apart { StandsNotAt addr result self.old.present }
        ensures number { self.new.present.cycle ≤ self.old.present.cycle + result }
        ensures marks { self.new ≡ at_state self.old self.new.present }
    {
        if self.stands_at(addr) {
            0
        } else {
            self.pass_idle(most)
        }
    }
}
