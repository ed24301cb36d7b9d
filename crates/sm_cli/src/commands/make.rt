//! `make SEED`: two runs of the workload of a seed.
ghost use Rattle.std.specs.Prelude.{◌≡◌, ◌≤◌, IfOk};
ghost use Rattle.sm_io.specs.Sink.{Puts};
ghost use Rattle.sm_cli.specs.MakeCommand.{make_command, read_make, seed_of, events_after, run_text, runs_text, run_start, second_data};
ghost use Rattle.sm_cli.specs.Numbers.{number_line};
ghost use Rattle.written_machine.specs.Cycle.{after_cycles};
ghost use Rattle.written_machine.specs.Marks.{unmarked};
ghost use Rattle.written_machine.specs.View.{boot};
ghost use Rattle.workload.specs.Program.{image};

use board::{Board, NoMemory};
use cli_calls::{Answering, Reading};
use cli_files::{NO_MEMORY, Refused, Status, put_named, status_after};
use schedule_file::Schedule;
use sm_io::{Failed, Files, Sink};
use std::alloc::{AllocError, Global};
use texts::{decimal, read_decimal};

/// Each run is so many cycles long.
pub const CYCLES: u64 = 200_000;

/// The module's data in the first run.
pub const FIRST_DATA: u16 = 0;

/// The largest seed.
pub const MAX_SEED: u64 = 4_294_967_295;

// What the rules say of them: a changed number is refused here.
const _: () = prove!(CYCLES == 200_000 && MAX_SEED == 4_294_967_295);

/// How many words there are.
pub const WORDS: u64 = 0x1_0000;

/// The argument.
#[derive(Clone, Copy)]
pub struct MakeCommand {
    pub seed: u32,
}

impl<'a> Reading<'a> for MakeCommand {
    ghost asks = { read_make };

    fn read_values(_alloc: Global, values: &[&'a str]) -> Result<Option<Self>, AllocError> {
        if values.len() != 1 {
            return Ok(None);
        }
        match seed_of(values[0]) {
            Some(seed) => Ok(Some(MakeCommand { seed })),
            None => Ok(None),
        }
    }
}

fn seed_of(word: &str) -> Option<u32>
    ensures { result ≡ seed_of word.now }
{
    match read_decimal(word.as_bytes(), MAX_SEED) {
        Some(seed) => Some(seed as u32),
        None => None,
    }
}

impl Answering for MakeCommand {
    ghost asked = { λ c. make_command c.seed };

    fn answer<F: Files, O: Sink>(
        &self,
        alloc: Global,
        _files: &mut F,
        out: &mut O,
    ) -> Result<Status, Refused<'_>> {
        match boards_of(alloc, self.seed) {
            Ok(boards) => Ok(status_after(put_runs(self.seed, boards, CYCLES, out))),
            Err(_) => Err(NO_MEMORY),
        }
    }
}

/// The machines of the two runs.
#[derive(Drop)]
struct Boards {
    first: Board,
    second: Board,
}

// Makes both machines of a seed.
#[tactic(auto, unfolding(crate::specs::MakeCommand::run_start))]
fn boards_of(alloc: Global, seed: u32) -> Result<Boards, NoMemory>
    ensures first { IfOk result (λ b. b.first ≡ unmarked 0 (run_start seed 0)) }
    ensures second { IfOk result (λ b. b.second ≡ unmarked 0 (run_start seed (second_data seed))) }
{
    let second_data = workload::next(u64::from(seed)) % WORDS;
    let schedule = workload::schedule(alloc, seed)?;
    let first = board_of(alloc, FIRST_DATA, &schedule)?;
    let second = board_of(alloc, second_data as u16, &schedule)?;
    Ok(Boards { first, second })
}

// A machine whose module has this word as its data.
fn board_of(alloc: Global, word: u16, schedule: &Schedule) -> Result<Board, NoMemory>
    ensures { IfOk result (λ b. b ≡ unmarked 0 (boot (image word) schedule.now.entries.items)) }
{
    let image = workload::image(alloc, word)?;
    Board::new(alloc, &image, schedule)
}

// Runs both machines, and puts what is told of them.
fn put_runs<O: Sink>(seed: u32, boards: Boards, cycles: u64, out: &mut O) -> Result<(), Failed>
    requires few { cycles ≤ 1000000000 }
    requires first { boards.first.present.cycle ≤ 1000000000 }
    requires second { boards.second.present.cycle ≤ 1000000000 }
    ensures { Puts O.taken O.faults O.sure out.old out.new
        (runs_text seed cycles boards.first.present boards.second.present) result }
{
    match put_number(out, b"seed ", u64::from(seed)) {
        Ok(()) => {}
        Err(Failed) => return Err(Failed),
    }
    match put_run(boards.first, cycles, out) {
        Ok(()) => put_run(boards.second, cycles, out),
        Err(Failed) => Err(Failed),
    }
}

// Runs a machine, and puts the number of its trace's lines and the end line.
fn put_run<O: Sink>(board: Board, cycles: u64, out: &mut O) -> Result<(), Failed>
    requires few { cycles ≤ 1000000000 }
    requires cycle { board.present.cycle ≤ 1000000000 }
    ensures { Puts O.taken O.faults O.sure out.old out.new (run_text board.present cycles) result }
{
    let mut board = board;
    let lines = count_events(&mut board, cycles) + 1;
    match put_number(out, b"lines ", lines) {
        Ok(()) => board.finish(out),
        Err(Failed) => Err(Failed),
    }
}

// Puts a name and a number as a line.
fn put_number<O: Sink>(out: &mut O, name: &[u8], number: u64) -> Result<(), Failed>
    ensures { Puts O.taken O.faults O.sure out.old out.new (number_line name.now number) result }
{
    put_named(out, name, decimal(number).as_str().as_bytes(), b"\n")
}

// Runs a machine, and counts its events.
fn count_events(board: &mut Board, cycles: u64) -> u64
    requires few { cycles ≤ 1000000000 }
    requires cycle { board.old.present.cycle ≤ 1000000000 }
    ensures state { board.new.present ≡ after_cycles board.old.present cycles }
    ensures count { result ≡ events_after board.old.present cycles }
    ensures most { result ≤ 4000000000 }
{
    let mut count = 0;
    for _ in 0..cycles {
        count += board.tick().len() as u64;
    }
    count
}
