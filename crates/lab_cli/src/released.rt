//! `released IMAGE ID TERMS ARMS`: the verdict of a module's text under terms, with certificates of balanced branches.
ghost use Rattle.std.specs.Prelude.{IfOk};
ghost use Rattle.flow_rule.specs.Arms.{VerdictUnder};
ghost use Rattle.mod_layout.specs.Tables.{IsModule};
ghost use Rattle.written_machine.specs.Peers.{section};
ghost use Rattle.cli_calls.specs.Offers.{terms_by};
ghost use Rattle.lab_cli.specs.ReleasedCommand.{judged_under};

use crate::under_terms::{JudgedText, Told};
use cli_calls::{put_verdict, text_of};
use cli_files::{Chosen, Status};
use flow_check::{Arms, Verdict, check_under};
use sm_io::Sink;
use std::alloc::{AllocError, Global};
use terms_file::Terms;

/// The verdict.
#[derive(Clone, Copy)]
pub struct Released;

impl JudgedText for Released {
    ghost judging = { judged_under };

    fn put<O: Sink>(
        alloc: Global,
        chosen: &Chosen,
        told: &Told,
        out: &mut O,
    ) -> Result<Status, AllocError> {
        let verdict = verdict_under(alloc, chosen, &told.terms, &told.arms)?;
        Ok(put_verdict(out, verdict))
    }
}

/// The verdict of a module's text under these terms, with these certificates.
pub fn verdict_under(
    alloc: Global,
    chosen: &Chosen,
    terms: &Terms,
    arms: &Arms,
) -> Result<Verdict, AllocError>
    requires { IsModule chosen.now.image.table.given chosen.now.«module» }
    ensures { IfOk result (λ v. VerdictUnder (terms_by terms.now.list.items) chosen.now.«module»
        (section chosen.now.«module».text chosen.now.image.memory) arms.now.list.items v) }
{
    let answers = terms_file::answers(alloc, terms.list.as_slice())?;
    let public = terms_file::public(alloc, terms.list.as_slice())?;
    check_under(
        alloc,
        &chosen.module,
        text_of(chosen),
        arms,
        answers.as_slice(),
        public.as_slice(),
    )
}
