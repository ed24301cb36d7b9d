//! Runs as a whole and in two parts against runs by ticks.

ghost use Rattle.std.specs.Prelude.{◌≡◌, ◌≤◌, ◌+◌, IfOk};

use crate::draws::{Draws, draw_schedule};
use crate::programs::draw_image;
use arrayvec::ArrayString;
use board::Board;
use schedule_file::read_schedule;
use sm_io::{MemSink, put_all};
use std::alloc::Global;
use std::process::Abort;
use std::test::Fail;
use tracer::Event;
use written_machine::Hidden;

/// How many programs are run. Outside the gate it was raised to 10,000.
const PROGRAMS: u32 = 300;

/// How many cycles each has.
const CYCLES: u16 = 400;

/// The room for a run's text.
const ROOM: usize = 20_000;

#[derive(Drop)]
struct Case {
    image: String,
    schedule: String,
}

fn board_of(alloc: Global, case: &Case) -> Result<Board, Fail>
    ensures { IfOk result (λ board. board.present.cycle ≡ 0) }
{
    let image = image_text::read(alloc, case.image.as_bytes())?;
    let schedule = read_schedule(alloc, case.schedule.as_bytes())?;
    Ok(Board::new(alloc, &image, &schedule)?)
}

fn put_lines(cycle: u64, events: &[Event], sink: &mut MemSink) -> Result<(), Fail> {
    for event in events {
        let mut line = ArrayString::new();
        tracer::line(cycle, event, &mut line);
        put_all(sink, line.as_str().as_bytes())?;
    }
    Ok(())
}

/// One cycle, with its lines.
fn tick(board: &mut Board, sink: &mut MemSink) -> Result<(), Fail>
    requires { board.old.present.cycle ≤ 65536 }
    ensures { board.new.present.cycle ≤ board.old.present.cycle + 1 }
{
    let cycle = board.view(Hidden::All).cycle();
    let events = board.tick();
    put_lines(cycle, events.as_slice(), sink)
}

/// The text by ticks.
fn ticked(alloc: Global, case: &Case) -> Result<MemSink, Fail> {
    let mut sink = MemSink::new(alloc, ROOM)?;
    let mut board = board_of(alloc, case)?;
    for number in 0..CYCLES {
        tick(&mut board, &mut sink)?;
    }
    board.finish(&mut sink)?;
    Ok(sink)
}

/// So many cycles at once.
fn run_on(board: &mut Board, cycles: u16, sink: &mut MemSink)
    requires { board.old.present.cycle ≤ 65536 }
    ensures { board.new.present.cycle ≤ board.old.present.cycle + cycles }
{
    board.run(u64::from(cycles), sink);
}

/// The text by two runs, the first of so many cycles.
fn run(alloc: Global, case: &Case, first: u16) -> Result<MemSink, Fail> {
    let mut sink = MemSink::new(alloc, ROOM)?;
    let mut board = board_of(alloc, case)?;
    run_on(&mut board, first, &mut sink);
    run_on(&mut board, CYCLES.saturating_sub(first), &mut sink);
    board.finish(&mut sink)?;
    Ok(sink)
}

fn assert_same(rt: &impl Abort, alloc: Global, seed: u32) -> Result<(), Fail> {
    let mut draws = Draws::new(seed);
    let case = Case {
        image: draw_image(alloc, &mut draws)?,
        schedule: draw_schedule(alloc, &mut draws)?,
    };
    let text = ticked(alloc, &case)?;
    let whole = run(alloc, &case, CYCLES)?;
    let parts = run(alloc, &case, draws.below(CYCLES))?;
    assert_eq!(rt; whole.taken(), text.taken(), "seed {seed}");
    assert_eq!(rt; parts.taken(), text.taken(), "seed {seed}");
    Ok(())
}

#[test]
fn runs_are_ticks(rt: HostRuntime) -> Result<(), Fail> {
    for seed in 0..PROGRAMS {
        assert_same(&rt, rt.alloc(), seed)?;
    }
    Ok(())
}
