// Commands, read from the words of a call.
ghost use Rattle.std.specs.Prelude.{◌≡◌, ◌<◌, ◌≤◌, ℕ, List, Option, IfOk, IfSome, length, map, drop, option_map, option_and_then};
ghost use Rattle.cli_calls.specs.Command.{Command};
ghost use Rattle.cli_calls.specs.Words.{Text, texts, values_within};

use crate::answering::Answering;
use crate::words::values_of;
use std::alloc::{AllocError, Global};

/// A command that values of words are read as.
pub trait Reading<'a>: Answering + Sized {
    /// What values ask for.
    ghost asks: { List Text → Option Command };

    /// What it has to know of the number of its values.
    ghost few: { ℕ → Type 0 } = { λ _. Unit {0} };

    /// The command that the values are.
    fn read_values(alloc: Global, values: &[&'a str]) -> Result<Option<Self>, AllocError>
        requires number { few (length values.now) }
        ensures command { IfOk result (λ o. option_map Self.asked o ≡ asks (map (λ w. w.now) values.now)) }
        ensures bounded { IfOk result (λ o. IfSome o Self.bounds) };
}

/// The command that the words after the first are, which is its name, where there are from `least` to `most` of them.
pub fn read<'a, C: Reading<'a>>(
    alloc: Global,
    name: &'a str,
    words: &'a [String],
    least: usize,
    most: usize,
) -> Result<Option<C>, AllocError>
    requires some { 0 < least }
    requires order { least ≤ most }
    requires number { (n : ℕ) → n ≤ most → C.few n }
    ensures command { IfOk result (λ o. option_map C.asked o
        ≡ option_and_then C.asks (values_within least most (drop 1 (texts words.entry.now)))) }
    ensures bounds { IfOk result (λ o. IfSome o C.bounds) }
{
    match values_of(alloc, name, words, least, most)? {
        Some(values) => C::read_values(alloc, values.as_slice()),
        None => Ok(None),
    }
}
