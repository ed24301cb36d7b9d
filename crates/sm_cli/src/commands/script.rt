//! `monitor IMAGE SCHEDULE SCRIPT`: what a script writes on the machine of an image.
ghost use Rattle.std.specs.Prelude.{◌≤◌, ◌+◌, ◌^◌};
ghost use Rattle.script_file.specs.Bounds.{all_cycles};
ghost use Rattle.sm_io.specs.Sink.{Took, CutOff};
ghost use Rattle.std.specs.Option.{option_copied};
ghost use Rattle.sm_cli.specs.MonitorCommand.{monitor_command, read_monitor, play_answer};
ghost use Rattle.cli_calls.specs.Runs.{EndsAs};

use board::{Board, Ran};
use cli_calls::{Answering, Reading, file_named};
use cli_files::{NO_MEMORY, Playable, Refused, Status, load, load_schedule};
use image_text::Image;
use monitor::play;
use script_file::Script;
use sm_io::{Files, Sink};
use std::alloc::{AllocError, Global};

/// How many marks a script may use.
const MOST_MARKS: u16 = 16;

// What the rules say of them: a changed number is refused here.
const _: () = prove!(MOST_MARKS == 16);

/// The arguments, with no schedule where its word is `-`.
#[derive(Clone, Copy)]
pub struct MonitorCommand<'a> {
    pub image: &'a str,
    pub schedule: Option<&'a str>,
    pub script: &'a str,
}

impl<'a> Reading<'a> for MonitorCommand<'a> {
    ghost asks = { read_monitor };

    fn read_values(_alloc: Global, values: &[&'a str]) -> Result<Option<Self>, AllocError> {
        if values.len() != 3 {
            return Ok(None);
        }
        Ok(Some(MonitorCommand {
            image: values[0],
            schedule: file_named(values[1]),
            script: values[2],
        }))
    }
}

impl Answering for MonitorCommand<'_> {
    ghost asked = { λ c. monitor_command c.image.now (option_copied c.schedule) c.script.now };

    fn answer<F: Files, O: Sink>(
        &self,
        alloc: Global,
        files: &mut F,
        out: &mut O,
    ) -> Result<Status, Refused<'_>> {
        let image = match load::<Image, F>(alloc, self.image, files) {
            Ok(image) => image,
            Err(refused) => return Err(refused),
        };
        let schedule = match load_schedule(alloc, self.schedule, files) {
            Ok(schedule) => schedule,
            Err(refused) => return Err(refused),
        };
        let playable = match load::<Playable, F>(alloc, self.script, files) {
            Ok(playable) => playable,
            Err(refused) => return Err(refused),
        };
        match Board::with_marks(alloc, &image, &schedule, MOST_MARKS) {
            Ok(board) => Ok(put_play(board, &playable.script, out)),
            Err(_) => Err(NO_MEMORY),
        }
    }
}

// Plays a script on the board, and tells whether it is stopped then.
fn put_play<O: Sink>(board: Board, script: &Script, out: &mut O) -> Status
    requires { board.present.cycle + all_cycles script.now.lines.items ≤ 2 ^ 62 }
    ensures { EndsAs result (play_answer board script.now.lines.items)
        (Took O.taken O.faults O.sure out.old out.new)
        (CutOff O.taken O.faults O.sure out.old out.new) }
{
    let mut board = board;
    match play(&mut board, script, out) {
        Ran::Done => Status::Done,
        Ran::Stopped(_) => Status::Stopped,
        Ran::SinkFailed => Status::WriteFault,
    }
}
