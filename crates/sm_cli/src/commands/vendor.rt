//! `vendor IMAGE ID PROVIDER CHALLENGES TRACE`: a vendor's report on the replies to its challenges.
ghost use Rattle.std.specs.Prelude.{◌≡◌, ◌≢◌, IsTrue, IfOk, IfErr, false};
ghost use Rattle.mod_layout.specs.Tables.{IsModule};
ghost use Rattle.sm_io.specs.Faults.{HasCause};
ghost use Rattle.sm_io.specs.Sink.{Took, CutOff};
ghost use Rattle.cli_files.specs.Files.{Holds, need, challenges_file, trace_file, the_challenges, the_replies};
ghost use Rattle.cli_files.specs.NameText.{name_text};
ghost use Rattle.cli_calls.specs.Runs.{EndsAs};
ghost use Rattle.cli_files.specs.Causes.{IsNeedCause};
ghost use Rattle.sm_cli.specs.VendorCommand.{vendor_command, read_vendor, exchange_needs, key_under, report_answer};

use cli_calls::{Answering, Reading, id_of, text_of};
use cli_files::{Chosen, Refusal, Refused, Replies, Status, load, load_with};
use mod_keys::{TAG_LENGTH, module_key_from};
use sm_io::{Failed, Files, Sink};
use std::alloc::{AllocError, Global};
use texts::read_hex_key;
use vendor_tool::{Challenges, report};

/// The arguments.
#[derive(Clone, Copy)]
pub struct VendorCommand<'a> {
    pub image: &'a str,
    pub id: u16,
    /// The key of the module's vendor.
    pub provider: [u8; TAG_LENGTH],
    pub challenges: &'a str,
    pub trace: &'a str,
}

impl<'a> Reading<'a> for VendorCommand<'a> {
    ghost asks = { read_vendor };

    fn read_values(_alloc: Global, values: &[&'a str]) -> Result<Option<Self>, AllocError> {
        if values.len() != 5 {
            return Ok(None);
        }
        let Some(id) = id_of(values[1]) else {
            return Ok(None);
        };
        let Some(provider) = read_hex_key(values[2].as_bytes()) else {
            return Ok(None);
        };
        Ok(Some(VendorCommand {
            image: values[0],
            id,
            provider,
            challenges: values[3],
            trace: values[4],
        }))
    }
}

impl Answering for VendorCommand<'_> {
    ghost asked = { λ c. vendor_command c.image.now c.challenges.now c.trace.now c.id c.provider };

    fn answer<F: Files, O: Sink>(
        &self,
        alloc: Global,
        files: &mut F,
        out: &mut O,
    ) -> Result<Status, Refused<'_>> {
        let chosen = match load_with(alloc, self.image, self.id, files) {
            Ok(chosen) => chosen,
            Err(refused) => return Err(refused),
        };
        let exchange = match load_exchange(alloc, self.challenges, self.trace, files) {
            Ok(exchange) => exchange,
            Err(refused) => return Err(refused),
        };
        let key = key_of(&self.provider, &chosen);
        Ok(put_report(&key, &exchange, out))
    }
}

/// What was sent to a machine, and what came back.
#[derive(Drop)]
struct Exchange {
    challenges: Challenges,
    replies: Replies,
}

// What the files of challenges and of a trace hold.
fn load_exchange<'a, F: Files>(
    alloc: Global,
    challenges: &'a str,
    trace: &'a str,
    files: &mut F,
) -> Result<Exchange, Refused<'a>>
    ensures challenges { IfOk result (λ exchange. Holds (F.content files.old) (need challenges.now challenges_file)
        (the_challenges exchange.challenges.list.items)) }
    ensures replies { IfOk result (λ exchange. Holds (F.content files.old) (need trace.now trace_file)
        (the_replies exchange.replies.sent.items)) }
    ensures quiet { IfOk result (λ _. HasCause (F.faults files.old) (F.faults files.new) false) }
    ensures refused { IfErr result (λ refused. IsNeedCause (F.content files.old) (F.faults files.old)
        (F.faults files.new) (exchange_needs challenges.now trace.now) refused.refusal (name_text refused.name)) }
    ensures sound { IsTrue (F.sound files.old) → F.faults files.new ≡ F.faults files.old }
    ensures sound_read { IsTrue (F.sound files.old) →
        IfErr result (λ refused. refused.refusal ≢ Refusal.CannotRead) }
    ensures same_sound { F.sound files.new ≡ F.sound files.old }
    ensures same_files { F.content files.new ≡ F.content files.old }
{
    let sent = match load::<Challenges, F>(alloc, challenges, files) {
        Ok(sent) => sent,
        Err(refused) => return Err(refused),
    };
    match load::<Replies, F>(alloc, trace, files) {
        Ok(replies) => Ok(Exchange {
            challenges: sent,
            replies,
        }),
        Err(refused) => Err(refused),
    }
}

// The module's key under its vendor's.
fn key_of(provider: &[u8; TAG_LENGTH], chosen: &Chosen) -> [u8; TAG_LENGTH]
    requires { IsModule chosen.now.image.table.given chosen.now.«module» }
    ensures { result ≡ key_under provider.now chosen.now.image chosen.now.«module» }
{
    module_key_from(provider, &chosen.module, text_of(chosen))
}

// Puts the report.
fn put_report<O: Sink>(key: &[u8; TAG_LENGTH], exchange: &Exchange, out: &mut O) -> Status
    ensures { EndsAs result (report_answer key.now exchange.now.challenges.list.items exchange.now.replies.sent.items)
        (Took O.taken O.faults O.sure out.old out.new) (CutOff O.taken O.faults O.sure out.old out.new) }
{
    match report(
        key,
        &exchange.challenges,
        exchange.replies.sent.as_slice(),
        out,
    ) {
        Ok(true) => Status::Done,
        Ok(false) => Status::CheckNo,
        Err(Failed) => Status::WriteFault,
    }
}
