//! The text of terms, line by line.

ghost use Rattle.std.specs.Prelude.{◌≡◌, ◌≢◌, ◌<◌, Ok, Err, IfOk, IfErr};
ghost use Rattle.cpu_step.specs.Lone as lone;
ghost use Rattle.texts.specs.Decimals.{read_decimal};
ghost use Rattle.texts.specs.Hexadecimals.{read_hex_word};
ghost use Rattle.terms_file.specs.Terms as spec;

use crate::{Term, Terms, TermsFault};
use sm_words::{CG, PC};
use std::alloc::Global;
use texts::{next_line, read_decimal, read_hex_word};

/// A text has at most so many lines.
const MAX_LINES: u64 = 270;

/// The terms that a text writes.
///
/// Line by line from 1, a line 271 is `TooMany`, a line of no form is `Line`, and one that does not come behind the line
/// before is `NotRising`. The first of these is answered, unless memory runs out before.
#[tactic(auto, unfolding(crate::specs::Terms::terms_of))]
pub fn read_terms(alloc: Global, bytes: &[u8]) -> Result<Terms, TermsFault>
    ensures read { IfOk result (λ terms. spec.terms_of bytes.now ≡ Ok terms.list.items) }
    ensures refused { IfErr result (λ fault. fault ≢ TermsFault.NoMemory → spec.terms_of bytes.now ≡ Err fault) }
{
    let mut list = Vec::new(alloc);
    let mut rest = bytes;
    let mut n = 1;
    let mut low: u32 = 0;
    while let Some((line, after)) = next_line(rest) {
        if n > MAX_LINES {
            return Err(TermsFault::TooMany);
        }
        let Some(term) = term_of(line) else {
            return Err(TermsFault::Line { n });
        };
        let place = term_place(term);
        if place < low {
            return Err(TermsFault::NotRising { n });
        }
        if list.push(term).is_err() {
            return Err(TermsFault::NoMemory);
        }
        low = place + 1;
        rest = after;
        n += 1;
    }
    Ok(Terms { list })
}

// The term that a line writes.
#[tactic(auto, unfolding(crate::specs::Terms::term_of))]
fn term_of(line: &[u8]) -> Option<Term>
    ensures { result ≡ spec.term_of line.now }
{
    if let Some(digits) = line.strip_prefix(b"answer r") {
        return answer_of(digits);
    }
    public_of(line.strip_prefix(b"public ")?)
}

// An answer, from the decimal of its register.
fn answer_of(digits: &[u8]) -> Option<Term>
    ensures { result ≡ spec.answer_of (read_decimal 15 digits.now) }
{
    let register = read_decimal(digits, 15)? as u8;
    is_answer(register).then_some(Term::Answer(register))
}

// A public word, from the digits of its address.
fn public_of(digits: &[u8]) -> Option<Term>
    ensures { result ≡ spec.public_of (read_hex_word digits.now) }
{
    let addr = read_hex_word(digits)?;
    (addr % 2 == 0).then_some(Term::Public(addr))
}

// Whether this register may be an answer.
fn is_answer(register: u8) -> bool
    ensures { result ≡ lone.is_answer register }
{
    register != PC && register != CG && register < 16
}

// Where a term stands among all that there may be.
fn term_place(term: Term) -> u32
    ensures place { result ≡ spec.term_place term }
    ensures low { result < 0x20000 }
{
    match term {
        Term::Answer(register) => u32::from(register),
        Term::Public(addr) => 16 + u32::from(addr),
    }
}
