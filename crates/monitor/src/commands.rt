//! The commands on marks: each does its move, and gives the line that tells it.

ghost use Rattle.std.specs.Prelude.{◌≡◌, ◌≤◌};
ghost use Rattle.written_machine.specs.Marks.{marked, back_to, last_at};
ghost use Rattle.written_machine.specs.Script.{mark_move, back_move, last_move};
ghost use Rattle.monitor.specs.internal.Shown.{last_fault_text};

use crate::showing::{
    Line, back_line, full_line, last_line, mark_line, no_mark_line, not_there_line,
};
use board::{Board, LastFault};

/// Marks this moment.
pub fn mark(board: &mut Board) -> Line
    ensures text { result.bytes ≡ (mark_move board.old (marked board.old)).text }
    ensures after { board.new ≡ (mark_move board.old (marked board.old)).after }
    ensures number { board.new.present.cycle ≤ board.old.present.cycle }
{
    match board.mark() {
        Ok(k) => mark_line(k, board),
        Err(full) => full_line(full.marks),
    }
}

/// Goes back to mark `k`.
pub fn back(board: &mut Board, k: u16) -> Line
    ensures text { result.bytes ≡ (back_move k board.old (back_to k board.old)).text }
    ensures after { board.new ≡ (back_move k board.old (back_to k board.old)).after }
    ensures number { board.new.present.cycle ≤ board.old.present.cycle }
{
    match board.back(k) {
        Ok(()) => back_line(k, board),
        Err(none) => no_mark_line(none.k),
    }
}

/// Goes back to the last moment from mark `k` on at which the outside stood at `addr`.
#[tactic(auto, using(crate::proofs::Doing::last_refused_text, crate::proofs::Doing::last_refused_after))]
pub fn last(board: &mut Board, addr: u16, k: u16) -> Line
    ensures text { result.bytes ≡ (last_move addr k board.old (last_at addr k board.old)).text }
    ensures after { board.new ≡ (last_move addr k board.old (last_at addr k board.old)).after }
    ensures number { board.new.present.cycle ≤ board.old.present.cycle }
{
    match board.last(addr, k) {
        Ok(_) => last_line(addr, board),
        Err(fault) => fault_line(fault),
    }
}

// The line that tells why the board does not go back to an address.
fn fault_line(fault: LastFault) -> Line
    ensures { result.bytes ≡ last_fault_text fault }
{
    match fault {
        LastFault::NoMark { k } => no_mark_line(k),
        LastFault::NotThere { addr } => not_there_line(addr),
    }
}
