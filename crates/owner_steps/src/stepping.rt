//! A run with all that its owner is shown.

ghost use Rattle.std.specs.Prelude.{◌≡◌, ◌≤◌, ◌<◌, ◌+◌, ◌^◌, ◌++◌, drop, take, length, option_map, OnOk};
ghost use Rattle.sm_io.specs.Sink.{Puts};
ghost use Rattle.written_machine.specs.Cycle.{cycle, after_cycles};
ghost use Rattle.owner_steps.specs.Begun.{begun};
ghost use Rattle.owner_steps.specs.Steps.{lines_between, early_count, is_early, lines_with, owner_lines, run_with};
ghost use Rattle.owner_steps.specs.Stepped.{Stepped};
ghost use Rattle.owner_steps.specs.Registers.{registers_line};
ghost use Rattle.owner_steps.specs.internal.Watching.{begun_of};

use crate::showing::registers_line;
use crate::watching::{Found, Watcher};
use arrayvec::ArrayVec;
use board::{Board, Hidden, Ran, put_lines};
use sm_io::{Failed, Sink, put_all};
use sm_words::Core;
use tracer::Event;

/// Runs a board for so many cycles, and puts its lines with all that the owner is shown, and the end line. After
/// `SinkFailed` the text was cut off.
pub fn steps<S: Sink>(board: Board, cycles: u64, sink: &mut S) -> Ran
    requires { board.present.cycle + cycles ≤ 2 ^ 62 }
    ensures { Stepped S.taken S.faults S.sure cycles board.present sink.old sink.new result }
{
    let mut board = board;
    match put_cycles(&mut board, cycles, sink) {
        Ok(()) => {}
        Err(Failed) => return Ran::SinkFailed,
    }
    match board.finish(sink) {
        Ok(()) => board.ended(),
        Err(Failed) => Ran::SinkFailed,
    }
}

// That many cycles, or fewer where the machine stops, with their lines.
fn put_cycles<S: Sink>(board: &mut Board, cycles: u64, sink: &mut S) -> Result<(), Failed>
    requires number { board.old.present.cycle + cycles ≤ 2 ^ 62 }
    ensures lines { Puts S.taken S.faults S.sure sink.old sink.new (run_with owner_lines board.old.present cycles) result }
    ensures state { OnOk result (board.new.present ≡ after_cycles board.old.present cycles) }
{
    let mut left = cycles;
    while left > 0 {
        if board.is_stopped() {
            return Ok(());
        }
        match put_cycle(board, sink) {
            Ok(()) => {}
            Err(Failed) => return Err(Failed),
        }
        left -= 1;
    }
    Ok(())
}

// One cycle, with its lines.
fn put_cycle<S: Sink>(board: &mut Board, sink: &mut S) -> Result<(), Failed>
    requires number { board.old.present.cycle < 2 ^ 62 }
    ensures lines { Puts S.taken S.faults S.sure sink.old sink.new (lines_with owner_lines board.old.present) result }
    ensures state { board.new.present ≡ (cycle board.old.present).state }
    ensures number { board.new.present.cycle ≤ board.old.present.cycle + 1 }
{
    let number = number_of(board);
    let old = board.core();
    let (events, found) = tick(board);
    let (early, late) = parted(events.as_slice());
    match put_lines(sink, number, early) {
        Ok(()) => {}
        Err(Failed) => return Err(Failed),
    }
    match put_between(&old, found, &board.core(), sink) {
        Ok(()) => {}
        Err(Failed) => return Err(Failed),
    }
    put_lines(sink, number, late)
}

// The number of the next cycle.
#[tactic(auto, unfolding(written_machine::specs::View::view_of))]
fn number_of(board: &Board) -> u64
    ensures { result ≡ board.now.present.cycle }
{
    board.view(Hidden::All).cycle()
}

// One cycle, with its events and the instruction that it begins.
#[tactic(auto, using(crate::proofs::Finding::none_begun, crate::proofs::Finding::begun_found))]
fn tick(board: &mut Board) -> (ArrayVec<Event, 4>, Option<Found>)
    requires number { board.old.present.cycle < 2 ^ 62 }
    ensures state { board.new.present ≡ (cycle board.old.present).state }
    ensures number { board.new.present.cycle ≤ board.old.present.cycle + 1 }
    ensures events { result.0.items ≡ (cycle board.old.present).events }
    ensures begun { option_map begun_of result.1 ≡ begun board.old.present }
{
    run_laws::tells();
    let mut watcher = Watcher { found: None };
    let events = board.tick_watched(&mut watcher);
    let found = if board.is_stopped() {
        None
    } else {
        watcher.found
    };
    (events, found)
}

// The events that are told before an instruction begins, and the others.
fn parted(events: &[Event]) -> (&[Event], &[Event])
    ensures early { result.0.now ≡ take (early_count events.now) events.now }
    ensures late { result.1.now ≡ drop (early_count events.now) events.now }
{
    events.split_at(early_count(events))
}

// How many of the events are told before an instruction begins.
fn early_count(events: &[Event]) -> usize
    ensures count { result ≡ early_count events.now }
    ensures most { result ≤ length events.now }
{
    let mut count = 0;
    for event in events {
        if !is_early(event) {
            return count;
        }
        count += 1;
    }
    count
}

fn is_early(event: &Event) -> bool
    ensures { result ≡ is_early event.now }
{
    match event {
        Event::Reti => false,
        Event::Protect { .. } => false,
        Event::Out { .. } => false,
        Event::Stop(_) => false,
        _ => true,
    }
}

// Puts the registers that changed without an instruction, and the lines of an instruction with those that it changed.
fn put_between<S: Sink>(
    old: &Core,
    found: Option<Found>,
    new: &Core,
    sink: &mut S,
) -> Result<(), Failed>
    ensures { Puts S.taken S.faults S.sure sink.old sink.new (lines_between old.now (option_map begun_of found) new.now)
        result }
{
    match found {
        None => put_registers(old, new, sink),
        Some(found) => put_found(old, &found, new, sink),
    }
}

fn put_found<S: Sink>(old: &Core, found: &Found, new: &Core, sink: &mut S) -> Result<(), Failed>
    ensures { Puts S.taken S.faults S.sure sink.old sink.new
        (registers_line old.now found.now.core ++ found.now.lines.bytes ++ registers_line found.now.past new.now) result }
{
    match put_registers(old, &found.core, sink) {
        Ok(()) => {}
        Err(Failed) => return Err(Failed),
    }
    match put_all(sink, found.lines.as_str().as_bytes()) {
        Ok(()) => {}
        Err(Failed) => return Err(Failed),
    }
    put_registers(&found.past, new, sink)
}

fn put_registers<S: Sink>(old: &Core, new: &Core, sink: &mut S) -> Result<(), Failed>
    ensures { Puts S.taken S.faults S.sure sink.old sink.new (registers_line old.now new.now) result }
{
    put_all(sink, registers_line(old, new).as_str().as_bytes())
}
