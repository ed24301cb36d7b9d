//! Terms as two lists.

ghost use Rattle.std.specs.Prelude.{◌≡◌, ◌++◌, IfOk, OnOk};
ghost use Rattle.terms_file.specs.Terms as spec;

use crate::Term;
use std::alloc::{AllocError, Global};

/// The registers of the answers, in their order. An error means that an allocation failed.
pub fn answers(alloc: Global, terms: &[Term]) -> Result<Vec<u8>, AllocError>
    ensures { IfOk result (λ list. list.items ≡ spec.registers_in terms.now) }
{
    let mut list = Vec::new(alloc);
    for term in terms {
        push_answer(&mut list, *term)?;
    }
    Ok(list)
}

/// The addresses of the public words, in their order. An error means that an allocation failed.
pub fn public(alloc: Global, terms: &[Term]) -> Result<Vec<u16>, AllocError>
    ensures { IfOk result (λ list. list.items ≡ spec.addresses_in terms.now) }
{
    let mut list = Vec::new(alloc);
    for term in terms {
        push_public(&mut list, *term)?;
    }
    Ok(list)
}

fn push_answer(list: &mut Vec<u8>, term: Term) -> Result<(), AllocError>
    ensures { OnOk result (list.new.items ≡ list.old.items ++ spec.answer_in term) }
{
    if let Term::Answer(register) = term {
        list.push(register)?;
    }
    Ok(())
}

fn push_public(list: &mut Vec<u16>, term: Term) -> Result<(), AllocError>
    ensures { OnOk result (list.new.items ≡ list.old.items ++ spec.public_in term) }
{
    if let Term::Public(addr) = term {
        list.push(addr)?;
    }
    Ok(())
}
