//! `check IMAGE ID`: the verdict of a module's text.
ghost use Rattle.std.specs.Prelude.{IfOk, []};
ghost use Rattle.flow_rule.specs.Arms.{VerdictWith};
ghost use Rattle.mod_layout.specs.Tables.{IsModule};
ghost use Rattle.written_machine.specs.Peers.{section};
ghost use Rattle.sm_cli.specs.CheckCommand.{check_command, read_check};

use cli_calls::{Answering, Reading, id_of, put_verdict, text_of};
use cli_files::{Chosen, NO_MEMORY, Refused, Status, load_with};
use flow_check::Verdict;
use sm_io::{Files, Sink};
use std::alloc::{AllocError, Global};

/// The arguments.
#[derive(Clone, Copy)]
pub struct CheckCommand<'a> {
    pub image: &'a str,
    pub id: u16,
}

impl<'a> Reading<'a> for CheckCommand<'a> {
    ghost asks = { read_check };

    fn read_values(_alloc: Global, values: &[&'a str]) -> Result<Option<Self>, AllocError> {
        if values.len() != 2 {
            return Ok(None);
        }
        match id_of(values[1]) {
            Some(id) => Ok(Some(CheckCommand {
                image: values[0],
                id,
            })),
            None => Ok(None),
        }
    }
}

impl Answering for CheckCommand<'_> {
    ghost asked = { λ c. check_command c.image.now c.id };

    fn answer<F: Files, O: Sink>(
        &self,
        alloc: Global,
        files: &mut F,
        out: &mut O,
    ) -> Result<Status, Refused<'_>> {
        let chosen = match load_with(alloc, self.image, self.id, files) {
            Ok(chosen) => chosen,
            Err(refused) => return Err(refused),
        };
        match verdict_of(alloc, &chosen) {
            Ok(verdict) => Ok(put_verdict(out, verdict)),
            Err(AllocError) => Err(NO_MEMORY),
        }
    }
}

// The verdict of a module's text.
fn verdict_of(alloc: Global, chosen: &Chosen) -> Result<Verdict, AllocError>
    requires { IsModule chosen.now.image.table.given chosen.now.«module» }
    ensures { IfOk result (λ v. VerdictWith chosen.now.«module»
        (section chosen.now.«module».text chosen.now.image.memory) [] v) }
{
    flow_check::check(alloc, &chosen.module, text_of(chosen))
}
