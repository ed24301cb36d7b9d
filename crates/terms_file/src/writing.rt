//! The text of terms, written.

ghost use Rattle.std.specs.Prelude.{◌≡◌, ◌++◌, IfOk, OnOk, codes};
ghost use Rattle.terms_file.specs.Terms as spec;

use crate::Term;
use std::alloc::{AllocError, Global};
use texts::{decimal, hex_word};

/// The text that says these terms, a line each, in their order. An error means that an allocation failed.
pub fn terms_text(alloc: Global, terms: &[Term]) -> Result<Vec<u8>, AllocError>
    ensures { IfOk result (λ text. text.items ≡ spec.terms_text terms.now) }
{
    let mut text = Vec::new(alloc);
    for term in terms {
        push_term(&mut text, *term)?;
    }
    Ok(text)
}

// Appends the line of a term.
fn push_term(text: &mut Vec<u8>, term: Term) -> Result<(), AllocError>
    ensures { OnOk result (text.new.items ≡ text.old.items ++ spec.term_line term) }
{
    match term {
        Term::Answer(register) => push_line(
            text,
            b"answer r",
            decimal(u64::from(register)).as_str().as_bytes(),
        ),
        Term::Public(addr) => push_line(text, b"public ", hex_word(addr).as_str().as_bytes()),
    }
}

// Appends a line of two parts.
fn push_line(text: &mut Vec<u8>, first: &[u8], second: &[u8]) -> Result<(), AllocError>
    ensures { OnOk result (text.new.items ≡ text.old.items ++ ((first.now ++ second.now) ++ codes "\n")) }
{
    text.extend_from_slice(first)?;
    text.extend_from_slice(second)?;
    text.extend_from_slice(b"\n")?;
    Ok(())
}
