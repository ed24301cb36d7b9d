//! `steps IMAGE SCHEDULE CYCLES`: what the owner sees of a run, instruction by instruction.
ghost use Rattle.std.specs.Prelude.{is_some, refl};
ghost use Rattle.written_machine.specs.Cycle.{after_cycles};
ghost use Rattle.owner_steps.specs.Steps.{owner_lines, text_with};
ghost use Rattle.cli_calls.specs.Command.{run_status};
ghost use Rattle.lab_cli.specs.StepsCommand.{steps_outcome};

use board::{Board, Ran};
use cli_calls::RunText;
use cli_files::Status;
use sm_io::Sink;

/// What the owner sees.
#[derive(Clone, Copy)]
pub struct Steps;

impl RunText for Steps {
    ghost told = { steps_outcome };

    ghost told_from = { λ s cycles. record {
      text = text_with owner_lines s cycles;
      status = run_status (is_some (after_cycles s cycles).stop);
    } };

    ghost answers = { λ value entries cycles. refl };

    ghost sound = { λ value entries cycles image. tt };

    fn put<O: Sink>(board: Board, cycles: u64, out: &mut O) -> Status {
        match owner_steps::steps(board, cycles, out) {
            Ran::Done => Status::Done,
            Ran::Stopped(_) => Status::Stopped,
            Ran::SinkFailed => Status::WriteFault,
        }
    }
}
