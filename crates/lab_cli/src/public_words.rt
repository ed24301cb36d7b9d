//! Public words of terms that are none of a module's data.
ghost use Rattle.std.specs.Prelude.{◌≡◌, find, not};
ghost use Rattle.sm_io.specs.Sink.{Took, CutOff, Puts};
ghost use Rattle.terms_file.specs.Terms.{public_in};
ghost use Rattle.cli_calls.specs.Runs.{EndsAs};
ghost use Rattle.lab_cli.specs.PublicWords as spec;

use cli_files::{Status, put_named};
use mod_layout::Module;
use sm_io::{Failed, Sink};
use terms_file::Term;

/// Of so many words of the data, from the first on, something is known.
const KNOWN_WORDS: u16 = 256;

/// The first address that terms name, and at which none of those words stands.
pub fn not_data(module: &Module, terms: &[Term]) -> Option<u16>
    ensures { result ≡ spec.not_data module.now terms.now }
{
    for term in terms {
        if let Some(addr) = outside(module, *term) {
            return Some(addr);
        }
    }
    None
}

/// Puts that none of those words stands at this address.
pub fn put_not_data<O: Sink>(out: &mut O, addr: u16) -> Status
    ensures { EndsAs result (spec.not_data_answer addr)
        (Took O.taken O.faults O.sure out.old out.new) (CutOff O.taken O.faults O.sure out.old out.new) }
{
    match put_line(out, addr) {
        Ok(()) => Status::CheckNo,
        Err(Failed) => Status::WriteFault,
    }
}

fn put_line<O: Sink>(out: &mut O, addr: u16) -> Result<(), Failed>
    ensures { Puts O.taken O.faults O.sure out.old out.new (spec.not_data_line addr) result }
{
    put_named(
        out,
        b"no ",
        texts::hex_word(addr).as_str().as_bytes(),
        b" NotData\n",
    )
}

// The address that a term names, where none of those words stands there.
fn outside(module: &Module, term: Term) -> Option<u16>
    ensures { result ≡ find (λ a. not (spec.is_data_word module.now a)) (public_in term) }
{
    match term {
        Term::Answer(_) => None,
        Term::Public(addr) => (!is_data_word(module, addr)).then_some(addr),
    }
}

// Whether one of those words stands at this address.
fn is_data_word(module: &Module, addr: u16) -> bool
    ensures { result ≡ spec.is_data_word module.now addr }
{
    let words = addr.saturating_sub(module.ram.start) / 2;
    module.ram.holds(usize::from(addr)) && words < KNOWN_WORDS
}
