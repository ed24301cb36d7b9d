//! A script, played on a board.

ghost use Rattle.std.specs.Prelude.{◌≡◌, ◌∷◌, ◌+◌, ◌≤◌, ◌^◌, [], IsOk};
ghost use Rattle.board.specs.Ran.{ran_of};
ghost use Rattle.sm_io.specs.Sink.{Puts};
ghost use Rattle.written_machine.specs.Script.{cycle_moves, line_moves};
ghost use Rattle.written_machine.specs.Standing.{cycles_until};
ghost use Rattle.script_file.specs.Bounds.{IsBounded, most_cycles, all_cycles};
ghost use Rattle.monitor.specs.Played.{Plays, PeersPlay};
ghost use Rattle.monitor.specs.internal.Played.{Does};

use crate::commands::{back, last, mark};
use crate::showing::{Line, mem_line, regs_line};
use board::{Board, Hidden, Ran};
use script_file::{Script, ScriptLine};
use sm_io::{Failed, Sink, put_all};

/// Does the lines of a script in their order, puts what they write, and then puts the end line. A stopped board does
/// not end the script.
///
/// After `SinkFailed` the board stands after the cycle or the command whose text was refused.
pub fn play<S: Sink>(board: &mut Board, script: &Script, sink: &mut S) -> Ran
    requires { board.old.present.cycle + all_cycles script.now.lines.items ≤ 2 ^ 62 }
    ensures played { Plays S.taken S.faults S.sure script.now.lines.items board.old board.new sink.old sink.new result }

    // The text is that of each image that differs in one confined module's data alone.
    ensures peers { PeersPlay S.taken S.faults S.sure script.now.lines.items board.old sink.old sink.new result }
{
    isolation::texts();
    for line in script.lines.as_slice() {
        match play_line(board, *line, sink) {
            Ok(()) => {}
            Err(Failed) => return Ran::SinkFailed,
        }
    }
    match board.finish(sink) {
        Ok(()) => board.ended(),
        Err(Failed) => Ran::SinkFailed,
    }
}

// Does one line, and puts what it writes.
fn play_line<S: Sink>(board: &mut Board, line: ScriptLine, sink: &mut S) -> Result<(), Failed>
    requires bounds { IsBounded line }
    requires cycles { board.old.present.cycle + most_cycles line ≤ 2 ^ 62 }
    ensures done { Does S.taken S.faults S.sure board.old board.new sink.old sink.new
        (line_moves board.old line) result }
    ensures number { board.new.present.cycle ≤ board.old.present.cycle + most_cycles line }
{
    match line {
        ScriptLine::Go(cycles) => go(board, u64::from(cycles), sink),
        ScriptLine::Until { addr, limit } => go_until(board, addr, u64::from(limit), sink),
        ScriptLine::Regs => put(sink, &regs_line(&board.view(Hidden::All))),
        ScriptLine::Mem { addr, count } => {
            put(sink, &mem_line(&board.view(Hidden::All), addr, count))
        }
        ScriptLine::Mark => put(sink, &mark(board)),
        ScriptLine::Back(k) => put(sink, &back(board, k)),
        ScriptLine::Last { addr, k } => put(sink, &last(board, addr, k)),
    }
}

// So many cycles.
fn go<S: Sink>(board: &mut Board, cycles: u64, sink: &mut S) -> Result<(), Failed>
    requires { board.old.present.cycle + cycles ≤ 2 ^ 62 }
    ensures done { Does S.taken S.faults S.sure board.old board.new sink.old sink.new
        (cycle_moves board.old cycles) result }
    ensures number { board.new.present.cycle ≤ board.old.present.cycle + cycles }
{
    match board.run(cycles, sink) {
        Ran::Done => Ok(()),
        Ran::Stopped(_) => Ok(()),
        Ran::SinkFailed => Err(Failed),
    }
}

// Cycles until it stands at an address, at most so many.
fn go_until<S: Sink>(board: &mut Board, addr: u16, most: u64, sink: &mut S) -> Result<(), Failed>
    requires { board.old.present.cycle + most ≤ 2 ^ 62 }
    ensures done { Does S.taken S.faults S.sure board.old board.new sink.old sink.new
        (cycle_moves board.old (cycles_until addr board.old.present most)) result }
    ensures number { board.new.present.cycle ≤ board.old.present.cycle + most }
{
    match board.run_until(addr, most, sink) {
        Ran::Done => Ok(()),
        Ran::Stopped(_) => Ok(()),
        Ran::SinkFailed => Err(Failed),
    }
}

// Puts a line.
fn put<S: Sink>(sink: &mut S, line: &Line) -> Result<(), Failed>
    ensures { Puts S.taken S.faults S.sure sink.old sink.new line.now.bytes result }
{
    put_all(sink, line.as_str().as_bytes())
}
