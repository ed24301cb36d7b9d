//! `balance IMAGE ID ARMS`: the verdict of a module's text, with certificates of balanced branches.
ghost use Rattle.std.specs.Prelude.{IfOk};
ghost use Rattle.flow_rule.specs.Arms.{VerdictWith};
ghost use Rattle.mod_layout.specs.Tables.{IsModule};
ghost use Rattle.written_machine.specs.Peers.{section};
ghost use Rattle.sm_cli.specs.BalanceCommand.{balance_command, read_balance};

use cli_calls::{Answering, Reading, id_of, put_verdict, text_of};
use cli_files::{Chosen, NO_MEMORY, Refused, Status, load, load_with};
use flow_check::{Arms, Verdict};
use sm_io::{Files, Sink};
use std::alloc::{AllocError, Global};

/// The arguments.
#[derive(Clone, Copy)]
pub struct BalanceCommand<'a> {
    pub image: &'a str,
    pub id: u16,
    pub arms: &'a str,
}

impl<'a> Reading<'a> for BalanceCommand<'a> {
    ghost asks = { read_balance };

    fn read_values(_alloc: Global, values: &[&'a str]) -> Result<Option<Self>, AllocError> {
        if values.len() != 3 {
            return Ok(None);
        }
        match id_of(values[1]) {
            Some(id) => Ok(Some(BalanceCommand {
                image: values[0],
                id,
                arms: values[2],
            })),
            None => Ok(None),
        }
    }
}

impl Answering for BalanceCommand<'_> {
    ghost asked = { λ c. balance_command c.image.now c.id c.arms.now };

    fn answer<F: Files, O: Sink>(
        &self,
        alloc: Global,
        files: &mut F,
        out: &mut O,
    ) -> Result<Status, Refused<'_>> {
        let chosen = match load_with(alloc, self.image, self.id, files) {
            Ok(chosen) => chosen,
            Err(refused) => return Err(refused),
        };
        let arms = match load::<Arms, F>(alloc, self.arms, files) {
            Ok(arms) => arms,
            Err(refused) => return Err(refused),
        };
        match verdict_with(alloc, &chosen, &arms) {
            Ok(verdict) => Ok(put_verdict(out, verdict)),
            Err(AllocError) => Err(NO_MEMORY),
        }
    }
}

// The verdict of a module's text, with these certificates.
fn verdict_with(alloc: Global, chosen: &Chosen, arms: &Arms) -> Result<Verdict, AllocError>
    requires { IsModule chosen.now.image.table.given chosen.now.«module» }
    ensures { IfOk result (λ v. VerdictWith chosen.now.«module»
        (section chosen.now.«module».text chosen.now.image.memory) arms.now.list.items v) }
{
    flow_check::check_with(alloc, &chosen.module, text_of(chosen), arms)
}
