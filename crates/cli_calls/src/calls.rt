// How a call of a program ends.
ghost use Rattle.std.specs.Prelude.{◌≡◌, ◌≢◌, IfOk, IfSome, IsTrue, Option, option_map};
ghost use Rattle.sm_io.specs.Sink.{Took, CutOff};
ghost use Rattle.cli_files.specs.NameText.{name_text};
ghost use Rattle.cli_calls.specs.Calls.{Ended, TellsAs, called};
ghost use Rattle.cli_calls.specs.Command.{Command};

use crate::answering::Answering;
use cli_files::{NO_MEMORY, Refused, Status, USAGE, put_refusal};
use sm_io::{Failed, Files, Sink};
use std::alloc::{AllocError, Global};

/// Ends the call of the program of this name: by the answer of the command that its words are, if they are one.
pub fn end_call<C: Answering + Drop, F: Files, O: Sink, E: Sink>(
    alloc: Global,
    program: &[u8],
    read: Result<Option<C>, AllocError>,
    files: &mut F,
    out: &mut O,
    err: &mut E,
) -> Status
    requires bounds { IfOk read (λ o. IfSome o C.bounds) }
    ensures ended { (asked : Option Command) → IfOk read (λ o. option_map C.asked o ≡ asked) →
        Ended (called program.now asked (F.content files.old) (F.faults files.old) (F.faults files.new)) result
        (Took O.taken O.faults O.sure out.old out.new) (CutOff O.taken O.faults O.sure out.old out.new)
        (Took E.taken E.faults E.sure err.old err.new) (CutOff E.taken E.faults E.sure err.old err.new)
        (err.new ≡ err.old) (out.new ≡ out.old) }
    ensures sound { IsTrue (F.sound files.old) →
        (result ≢ Status.ReadFault) × (F.faults files.new ≡ F.faults files.old) }
    ensures same_sound { F.sound files.new ≡ F.sound files.old }
    ensures same_files { F.content files.new ≡ F.content files.old }
    ensures unread { result ≡ Status.Usage → files.new ≡ files.old }
{
    let command = match read {
        Ok(Some(command)) => command,
        Ok(None) => return tell(err, program, USAGE),
        Err(_) => return tell(err, program, NO_MEMORY),
    };
    match command.answer(alloc, files, out) {
        Ok(status) => status,
        Err(refused) => tell(err, program, refused),
    }
}

/// Puts the line of a refusal, which begins with the program's name, and gives its status.
pub fn tell<E: Sink>(err: &mut E, program: &[u8], refused: Refused<'_>) -> Status
    ensures told { TellsAs program.now result refused.entry.refusal (name_text refused.entry.name)
        (Took E.taken E.faults E.sure err.old err.new) (CutOff E.taken E.faults E.sure err.old err.new) }
{
    match put_refusal(err, program, &refused) {
        Ok(()) => refused.refusal.status(),
        Err(Failed) => Status::WriteFault,
    }
}
