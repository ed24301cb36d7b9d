// What commands have in common.
ghost use Rattle.std.specs.Prelude.{◌≡◌, ◌≢◌, IsTrue, IfOk, IfErr, false};
ghost use Rattle.sm_io.specs.Faults.{HasCause};
ghost use Rattle.sm_io.specs.Sink.{Took, CutOff};
ghost use Rattle.cli_files.specs.declared.answers.Refusal.TheVariants.{CannotRead};
ghost use Rattle.cli_files.specs.NameText.{name_text};
ghost use Rattle.cli_calls.specs.Command.{Command};
ghost use Rattle.cli_calls.specs.Runs.{IsCommandCause, IsRun};

use cli_files::{Refused, Status};
use sm_io::{Files, Sink};
use std::alloc::Global;

/// A command that can be answered.
pub trait Answering {
    /// What it asks for.
    ghost asked: { Self → Command };

    /// Its numbers are within their bounds.
    ghost bounds: { Self → Type 0 } = { λ _. Unit {0} };

    /// Reads the files that it needs, in their order, and puts what comes of them. At a refusal nothing was put.
    fn answer<F: Files, O: Sink>(
        &self,
        alloc: Global,
        files: &mut F,
        out: &mut O,
    ) -> Result<Status, Refused<'_>>
        requires { bounds self.now }
        ensures ok { IfOk result (λ status. IsRun (F.content files.old) (asked self.now) status
            (Took O.taken O.faults O.sure out.old out.new) (CutOff O.taken O.faults O.sure out.old out.new)) }
        ensures quiet { IfOk result (λ _. HasCause (F.faults files.old) (F.faults files.new) false) }
        ensures refused { IfErr result (λ refused. IsCommandCause (F.content files.old) (F.faults files.old)
            (F.faults files.new) (asked self.now) refused.refusal (name_text refused.name)) }
        ensures nothing { IfErr result (λ _. out.new ≡ out.old) }
        ensures sound { IsTrue (F.sound files.old) → F.faults files.new ≡ F.faults files.old }
        ensures sound_read { IsTrue (F.sound files.old) → IfErr result (λ refused. refused.refusal ≢ CannotRead) }
        ensures same_sound { F.sound files.new ≡ F.sound files.old }
        ensures same_files { F.content files.new ≡ F.content files.old };
}
