//! `image IMAGE SCHEDULE CYCLES`: the outside trace of an image.
ghost use Rattle.std.specs.Prelude.{refl};
ghost use Rattle.cli_calls.specs.Command.{runs};
ghost use Rattle.sm_cli.specs.internal.ImageCommand.{answer_from};

use board::{Board, Ran};
use cli_calls::RunText;
use cli_files::Status;
use sm_io::{Failed, Sink};

/// The outside trace.
#[derive(Clone, Copy)]
pub struct Trace;

impl RunText for Trace {
    ghost told = { runs };

    ghost told_from = { answer_from };

    ghost answers = { λ value entries cycles. refl };

    ghost sound = { λ value entries cycles image. image };

    fn put<O: Sink>(board: Board, cycles: u64, out: &mut O) -> Status {
        let mut board = board;
        let status = match board.run(cycles, out) {
            Ran::Done => Status::Done,
            Ran::Stopped(_) => Status::Stopped,
            Ran::SinkFailed => return Status::WriteFault,
        };
        match board.finish(out) {
            Ok(()) => status,
            Err(Failed) => Status::WriteFault,
        }
    }
}
