// Verdicts, put to a sink.
ghost use Rattle.std.specs.Prelude.{◌≡◌, ◌++◌, length};
ghost use Rattle.texts.specs.Hexadecimals.{hex_word};
ghost use Rattle.mod_layout.specs.Table.{size_of};
ghost use Rattle.mod_layout.specs.Tables.{IsModule};
ghost use Rattle.written_machine.specs.Peers.{section};
ghost use Rattle.sm_io.specs.Sink.{Took, CutOff, Puts};
ghost use Rattle.cli_calls.specs.Command.{verdict_answer};
ghost use Rattle.cli_calls.specs.Runs.{EndsAs};
ghost use Rattle.cli_calls.specs.Verdicts.{no_line, reason_name};

use cli_files::{Chosen, Status, put_named};
use flow_rule::{Reason, Verdict};
use sm_io::{Failed, Sink, put_all};

/// The text of the module.
pub fn text_of(chosen: &Chosen) -> &[u8]
    requires { IsModule chosen.now.image.table.given chosen.now.«module» }
    ensures bytes { result.now ≡ section chosen.now.«module».text chosen.now.image.memory }
    ensures size { length result.now ≡ size_of chosen.now.«module».text }
{
    let text = &chosen.module.text;
    &chosen.image.memory[usize::from(text.start)..usize::from(text.end)]
}

/// Puts a verdict.
pub fn put_verdict<O: Sink>(out: &mut O, verdict: Verdict) -> Status
    ensures { EndsAs result (verdict_answer verdict)
        (Took O.taken O.faults O.sure out.old out.new)
        (CutOff O.taken O.faults O.sure out.old out.new) }
{
    match put_verdict_line(out, verdict) {
        Ok(()) => status_of(verdict),
        Err(Failed) => Status::WriteFault,
    }
}

fn status_of(verdict: Verdict) -> Status
    ensures { result ≡ (verdict_answer verdict).status }
{
    match verdict {
        Verdict::Yes => Status::Done,
        Verdict::No { .. } => Status::CheckNo,
    }
}

fn put_verdict_line<O: Sink>(out: &mut O, verdict: Verdict) -> Result<(), Failed>
    ensures { Puts O.taken O.faults O.sure out.old out.new (verdict_answer verdict).text result }
{
    match verdict {
        Verdict::Yes => put_all(out, b"yes\n"),
        Verdict::No {
            addr,
            reason,
            value,
        } => put_no(out, addr, reason, value),
    }
}

fn put_no<O: Sink>(out: &mut O, addr: u16, reason: Reason, value: u16) -> Result<(), Failed>
    ensures { Puts O.taken O.faults O.sure out.old out.new (no_line addr reason value) result }
{
    match put_word(out, b"no ", addr, b" ") {
        Ok(()) => {}
        Err(Failed) => return Err(Failed),
    }
    match put_reason(out, reason) {
        Ok(()) => {}
        Err(Failed) => return Err(Failed),
    }
    put_word(out, b" ", value, b"\n")
}

// Puts a word between two texts.
fn put_word<O: Sink>(out: &mut O, before: &[u8], word: u16, after: &[u8]) -> Result<(), Failed>
    ensures { Puts O.taken O.faults O.sure out.old out.new (before.now ++ (hex_word word ++ after.now)) result }
{
    put_named(
        out,
        before,
        texts::hex_word(word).as_str().as_bytes(),
        after,
    )
}

fn put_reason<O: Sink>(out: &mut O, reason: Reason) -> Result<(), Failed>
    ensures { Puts O.taken O.faults O.sure out.old out.new (reason_name reason) result }
{
    match reason {
        Reason::SecretBranch => put_all(out, b"SecretBranch"),
        Reason::SecretAddress => put_all(out, b"SecretAddress"),
        Reason::OutsideAccess => put_all(out, b"OutsideAccess"),
        Reason::SecretAtExit => put_all(out, b"SecretAtExit"),
        Reason::UnknownTarget => put_all(out, b"UnknownTarget"),
        Reason::Illegal => put_all(out, b"Illegal"),
        Reason::Unit => put_all(out, b"Unit"),
        Reason::TooMany => put_all(out, b"TooMany"),
        Reason::Arm => put_all(out, b"Arm"),
        Reason::ArmTime => put_all(out, b"ArmTime"),
        Reason::DataAtExit => put_all(out, b"DataAtExit"),
    }
}
