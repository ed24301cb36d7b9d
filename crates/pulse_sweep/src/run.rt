//! The run of an image with one pulse.

ghost use Rattle.std.specs.Prelude.{◌≡◌, ◌<◌, ◌≤◌, ◌+◌, ◌++◌, ◌^◌, IfOk, OnOk};
ghost use Rattle.written_machine.specs.Cycle.{cycle};
ghost use Rattle.written_machine.specs.Trace.{end_line_of, event_lines};
ghost use Rattle.pulse_sweep.specs.Sweep.{lone_pulse as pulse_alone, trace_at, columns_at};
ghost use Rattle.pulse_sweep.specs.internal.Told.{joined_columns, columns_of};

use crate::columns::{Columns, columns_of};
use crate::{NoMemory, Pulses};
use arrayvec::ArrayString;
use board::{Board, MOST_END_LINE};
use image_text::Image;
use schedule_file::{Entry, Schedule, What};
use sm_io::{Failed, MemSink};
use std::alloc::Global;
use tracer::Event;
use written_machine::Hidden;

/// What a run says.
#[derive(Drop)]
pub struct Run {
    pub columns: Columns,
    pub trace: Vec<u8>,
}

/// The run of an image with a pulse in this cycle.
pub fn run_pulse(alloc: Global, image: &Image, pulses: &Pulses, pulse: u64) -> Result<Run, NoMemory>
    requires line { pulses.now.line < 4 }
    requires number { pulses.now.cycles ≤ 2 ^ 62 }
    ensures columns { IfOk result (λ run. run.columns ≡ columns_at pulses.now image.now pulse) }
    ensures trace { IfOk result (λ run. run.trace.items ≡ trace_at pulses.now image.now pulse) }
{
    let schedule = pulse_alone(alloc, pulses.line, pulse)?;
    let mut board = Board::new(alloc, image, &schedule)?;
    let mut run = Run {
        columns: Columns::new(),
        trace: Vec::new(alloc),
    };
    for i in 0..pulses.cycles {
        run.tick(&mut board, pulse)?;
    }
    run.finish(alloc, &board)?;
    Ok(run)
}

// The schedule of a pulse alone.
fn pulse_alone(alloc: Global, line: u8, cycle: u64) -> Result<Schedule, NoMemory>
    requires { line < 4 }
    ensures { IfOk result (λ schedule. schedule.entries.items ≡ pulse_alone line cycle) }
{
    let what = What::Up(line);
    Ok(Schedule {
        entries: vec![in alloc; Entry { cycle, what }]?,
    })
}

impl Run {
    // One cycle, and what it says.
    fn tick(&mut self, board: &mut Board, pulse: u64) -> Result<(), NoMemory>
        requires number { board.old.present.cycle < 2 ^ 62 }
        ensures state { board.new.present ≡ (cycle board.old.present).state }
        ensures number { board.new.present.cycle ≤ board.old.present.cycle + 1 }
        ensures columns { OnOk result (self.new.columns ≡ joined_columns self.old.columns
            (columns_of pulse board.old.present.cycle (cycle board.old.present).events)) }
        ensures trace { OnOk result (self.new.trace.items ≡
            self.old.trace.items ++ event_lines board.old.present.cycle (cycle board.old.present).events) }
    {
        let cycle = cycle_of(board);
        let events = board.tick();
        let columns = columns_of(pulse, cycle, events.as_slice());
        self.columns = self.columns.or(columns);
        push_lines(cycle, events.as_slice(), &mut self.trace)?;
        Ok(())
    }

    // The end line.
    fn finish(&mut self, alloc: Global, board: &Board) -> Result<(), NoMemory>
        ensures columns { self.new.columns ≡ self.old.columns }
        ensures trace { OnOk result (self.new.trace.items ≡ self.old.trace.items ++ end_line_of board.now.present) }
    {
        let mut line = MemSink::new(alloc, MOST_END_LINE)?;
        match board.finish(&mut line) {
            Ok(()) => {
                self.trace.extend_from_slice(line.taken())?;
                Ok(())
            }
            // It has room for each end line.
            Err(Failed) => unreachable!(),
        }
    }
}

// The number of the next cycle.
#[tactic(auto, unfolding(written_machine::specs::View::view_of))]
fn cycle_of(board: &Board) -> u64
    ensures { result ≡ board.now.present.cycle }
{
    board.view(Hidden::All).cycle()
}

// Appends the lines of a cycle's events.
fn push_lines(cycle: u64, events: &[Event], trace: &mut Vec<u8>) -> Result<(), NoMemory>
    ensures { OnOk result (trace.new.items ≡ trace.old.items ++ event_lines cycle events.now) }
{
    for event in events {
        let mut line = ArrayString::new();
        tracer::line(cycle, event, &mut line);
        trace.extend_from_slice(line.as_str().as_bytes())?;
    }
    Ok(())
}
