//! `terms IMAGE ID TERMS ARMS`: of the terms that an owner would grant, those under which a module is judged yes.
ghost use Rattle.std.specs.Prelude.{◌≡◌, ◌++◌, ◌&&◌, ◌<◌, true, [], ◌∷◌, if◌then◌else◌, IfOk, OnOk, nat_lt, length};
ghost use Rattle.std.specs.List.{list_any};
ghost use Rattle.mod_layout.specs.Tables.{IsModule};
ghost use Rattle.written_machine.specs.Peers.{section};
ghost use Rattle.sm_io.specs.Sink.{Took, CutOff};
ghost use Rattle.cli_calls.specs.Command.{IsOffer, offer_answer, offers};
ghost use Rattle.cli_calls.specs.Offers as spec;
ghost use Rattle.cli_calls.specs.Runs.{EndsAs};

use crate::released::verdict_under;
use crate::under_terms::{JudgedText, Told};
use cli_calls::put_verdict;
use cli_files::{Chosen, Status};
use flow_check::{Arms, Verdict};
use flow_rule::Reason;
use sm_io::{Failed, Sink, put_all};
use std::alloc::{AllocError, Global};
use terms_file::{Term, Terms, terms_text};

/// The terms that are offered.
#[derive(Clone, Copy)]
pub struct OfferedTerms;

impl JudgedText for OfferedTerms {
    ghost judging = { offers };

    fn put<O: Sink>(
        alloc: Global,
        chosen: &Chosen,
        told: &Told,
        out: &mut O,
    ) -> Result<Status, AllocError> {
        let offered = offer(alloc, chosen, told)?;
        Ok(put_offer(out, &offered))
    }
}

// The text of the terms that are offered, and the verdict under them.
#[derive(Drop)]
struct Offered {
    text: Vec<u8>,
    verdict: Verdict,
}

// Puts what is offered.
fn put_offer<O: Sink>(out: &mut O, offered: &Offered) -> Status
    ensures { EndsAs result (offer_answer offered.now.text.items offered.now.verdict)
        (Took O.taken O.faults O.sure out.old out.new) (CutOff O.taken O.faults O.sure out.old out.new) }
{
    match offered.verdict {
        Verdict::Yes => match put_all(out, offered.text.as_slice()) {
            Ok(()) => Status::Done,
            Err(Failed) => Status::WriteFault,
        },
        Verdict::No { .. } => put_verdict(out, offered.verdict),
    }
}

// What is offered of the terms that an owner would grant.
fn offer(alloc: Global, chosen: &Chosen, told: &Told) -> Result<Offered, AllocError>
    requires { IsModule chosen.now.image.table.given chosen.now.«module» }
    ensures { IfOk result (λ o. IsOffer told.now.terms.list.items chosen.now.«module»
        (section chosen.now.«module».text chosen.now.image.memory) told.now.arms.list.items
        (offer_answer o.text.items o.verdict)) }
{
    let last = settle(alloc, chosen, told.terms.list.as_slice(), &told.arms)?;
    let text = terms_text(alloc, last.terms.list.as_slice())?;
    Ok(Offered {
        text,
        verdict: last.verdict,
    })
}

// Terms, and the verdict under them.
#[derive(Drop)]
struct Settled {
    terms: Terms,
    verdict: Verdict,
}

// Judges the module's text under the terms that stand, and again while the verdict names one that is granted.
fn settle(
    alloc: Global,
    chosen: &Chosen,
    granted: &[Term],
    arms: &Arms,
) -> Result<Settled, AllocError>
    requires { IsModule chosen.now.image.table.given chosen.now.«module» }
    ensures { IfOk result (λ last. spec.IsOffered chosen.now.«module»
        (section chosen.now.«module».text chosen.now.image.memory) arms.now.list.items granted.now
        (length granted.now) [] last.terms.list.items last.verdict) }
{
    let mut verdicts = Vec::new(alloc);
    let mut left = granted.len();
    loop {
        let terms = standing_terms(alloc, granted, verdicts.as_slice())?;
        let verdict = verdict_under(alloc, chosen, &terms, arms)?;
        if !goes_on(left, verdict, granted) {
            return Ok(Settled { terms, verdict });
        }
        verdicts.push(verdict)?;
        left -= 1;
    }
}

// Whether the verdict names a granted term, and there are verdicts left.
fn goes_on(left: usize, verdict: Verdict, granted: &[Term]) -> bool
    ensures exact { result ≡ (nat_lt 0 left && list_any (spec.names verdict) granted.now) }
    ensures some { result ≡ true → 0 < left }
{
    left > 0 && is_granted(verdict, granted)
}

// Whether the verdict names one of these terms.
fn is_granted(verdict: Verdict, granted: &[Term]) -> bool
    ensures { result ≡ list_any (spec.names verdict) granted.now }
{
    granted.iter().any(|term| names(verdict, *term))
}

// The granted terms that stand after these verdicts.
fn standing_terms(
    alloc: Global,
    granted: &[Term],
    verdicts: &[Verdict],
) -> Result<Terms, AllocError>
    ensures { IfOk result (λ terms. terms.list.items ≡ spec.standing_terms granted.now verdicts.now) }
{
    let mut list = Vec::new(alloc);
    for term in granted {
        push_standing(&mut list, *term, verdicts)?;
    }
    Ok(Terms { list })
}

// Appends a term, if it stands after these verdicts.
fn push_standing(list: &mut Vec<Term>, term: Term, verdicts: &[Verdict]) -> Result<(), AllocError>
    ensures { OnOk result (list.new.items
        ≡ list.old.items ++ (if spec.stands verdicts.now term then term ∷ [] else [])) }
{
    if stands(term, verdicts) {
        list.push(term)?;
    }
    Ok(())
}

// Whether a term stands after these verdicts.
fn stands(term: Term, verdicts: &[Verdict]) -> bool
    ensures { result ≡ spec.stands verdicts.now term }
{
    match term {
        Term::Answer(_) => is_named(term, verdicts),
        Term::Public(_) => !is_named(term, verdicts),
    }
}

// Whether one of these verdicts names a term.
fn is_named(term: Term, verdicts: &[Verdict]) -> bool
    ensures { result ≡ spec.have_named verdicts.now term }
{
    verdicts.iter().any(|verdict| names(*verdict, term))
}

// Whether a verdict names a term.
fn names(verdict: Verdict, term: Term) -> bool
    ensures { result ≡ spec.names verdict term }
{
    match verdict {
        Verdict::Yes => false,
        Verdict::No { reason, value, .. } => named_by(reason, value, term),
    }
}

// Whether a reason with this value names a term.
fn named_by(reason: Reason, value: u16, term: Term) -> bool
    ensures { result ≡ spec.named_by reason value term }
{
    match reason {
        Reason::SecretAtExit => is_register(value, term),
        Reason::DataAtExit => is_word(value, term),
        Reason::SecretBranch => false,
        Reason::SecretAddress => false,
        Reason::OutsideAccess => false,
        Reason::UnknownTarget => false,
        Reason::Illegal => false,
        Reason::Unit => false,
        Reason::TooMany => false,
        Reason::Arm => false,
        Reason::ArmTime => false,
    }
}

fn is_register(value: u16, term: Term) -> bool
    ensures { result ≡ spec.named_by Reason.SecretAtExit value term }
{
    match term {
        Term::Answer(register) => u16::from(register) == value,
        Term::Public(_) => false,
    }
}

fn is_word(value: u16, term: Term) -> bool
    ensures { result ≡ spec.named_by Reason.DataAtExit value term }
{
    match term {
        Term::Answer(_) => false,
        Term::Public(addr) => addr == value,
    }
}
