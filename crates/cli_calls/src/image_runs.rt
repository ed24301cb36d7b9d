// `IMAGE SCHEDULE CYCLES`: what is told of an image that is run on a schedule.
ghost use Rattle.std.specs.Prelude.{◌≤◌, ◌+◌, ◌^◌, ℕ, List};
ghost use Rattle.std.specs.Option.{option_copied};
ghost use Rattle.image_text.specs.Image.{Image as ImageValue, IsImage};
ghost use Rattle.schedule_file.specs.declared.Entry.{Entry};
ghost use Rattle.written_machine.specs.State.{State};
ghost use Rattle.written_machine.specs.View.{boot};
ghost use Rattle.sm_io.specs.Sink.{Took, CutOff};
ghost use Rattle.cli_calls.specs.Command.{Answer, Answers, Outcome};
ghost use Rattle.cli_calls.specs.ImageRuns.{image_run_command, read_image_run};
ghost use Rattle.cli_calls.specs.Runs.{EndsAs, RunsImage};
ghost use Rattle.cli_calls.specs.declared.values.TheConstants.{MAX_CYCLES};

use crate::answering::Answering;
use crate::reading::Reading;
use crate::values::{file_named, read_cycles};
use board::Board;
use cli_files::{NO_MEMORY, Refused, Status, load, load_schedule};
use image_text::Image;
use sm_io::{Files, Sink};
use std::alloc::{AllocError, Global};
use std::marker::PhantomData;

/// What is told of a run.
pub trait RunText: Drop {
    /// What comes of an image that is run.
    ghost told: { ImageValue → List Entry → ℕ → Outcome };

    /// What is told from a state on.
    ghost told_from: { State → ℕ → Answer };

    /// Runs the board and puts what is told of it.
    fn put<O: Sink>(board: Board, cycles: u64, out: &mut O) -> Status
        requires { board.present.cycle + cycles ≤ 2 ^ 62 }
        ensures { EndsAs result (told_from board.present cycles) (Took O.taken O.faults O.sure out.old out.new)
            (CutOff O.taken O.faults O.sure out.old out.new) };

    /// From the start of an image that is what comes of it.
    ghost answers: { (value : ImageValue) (entries : List Entry) (cycles : ℕ) →
        Answers (told value entries cycles) (told_from (boot value entries) cycles) };

    ghost sound: { (value : ImageValue) (entries : List Entry) (cycles : ℕ) → IsImage value →
        RunsImage (told value entries cycles) };
}

/// A command that tells it. Its arguments, with no schedule where its word is `-`.
#[derive(Drop)]
pub struct ImageRun<'a, T> {
    pub image: &'a str,
    pub schedule: Option<&'a str>,
    pub cycles: u64,
    pub text: PhantomData<T>,
}

impl<'a, T: RunText> Reading<'a> for ImageRun<'a, T> {
    ghost asks = { read_image_run T.told };

    fn read_values(_alloc: Global, values: &[&'a str]) -> Result<Option<Self>, AllocError> {
        if values.len() != 3 {
            return Ok(None);
        }
        match read_cycles(values[2]) {
            Some(cycles) => Ok(Some(ImageRun {
                image: values[0],
                schedule: file_named(values[1]),
                cycles,
                text: PhantomData,
            })),
            None => Ok(None),
        }
    }
}

impl<T: RunText> Answering for ImageRun<'_, T> {
    ghost asked = { λ c. image_run_command T.told c.image.now (option_copied c.schedule) c.cycles };

    ghost bounds = { λ c. c.cycles ≤ MAX_CYCLES };

    fn answer<F: Files, O: Sink>(
        &self,
        alloc: Global,
        files: &mut F,
        out: &mut O,
    ) -> Result<Status, Refused<'_>> {
        let image = match load::<Image, F>(alloc, self.image, files) {
            Ok(image) => image,
            Err(refused) => return Err(refused),
        };
        let schedule = match load_schedule(alloc, self.schedule, files) {
            Ok(schedule) => schedule,
            Err(refused) => return Err(refused),
        };
        match Board::new(alloc, &image, &schedule) {
            Ok(board) => Ok(T::put(board, self.cycles, out)),
            Err(_) => Err(NO_MEMORY),
        }
    }
}
