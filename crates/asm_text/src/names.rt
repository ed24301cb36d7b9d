//! Names by number.

ghost use Rattle.std.specs.Prelude.{◌≡◌, List, [], ℕ, true, Some, OnOk, IfOk, bytes_eq, string_bytes, if◌then◌else◌};
ghost use Rattle.asm_line.specs.Identifiers.{is_name};
ghost use Rattle.asm_text.specs.Names as spec;
ghost use Rattle.asm_text.specs.internal.Maps.{map_value, IsIndexed, texts_of, texts_in};

use std::alloc::{AllocError, Global};
use std::collections::BTreeMap;

/// Names in the order of their first appearance, which numbers them from 0.
#[derive(Drop)]
pub struct Names<'a> {
    texts: Vec<&'a [u8]>,
    numbers: BTreeMap<&'a [u8], usize>,
}

impl<'a> Names<'a> {
    pub fn new(alloc: Global) -> Self
        ensures none { texts_of result ≡ [] }
        ensures indexed { IsIndexed result }
    {
        Names {
            texts: Vec::new(alloc),
            numbers: BTreeMap::new(alloc),
        }
    }

    /// The names by their number.
    pub fn texts(&self) -> &[&'a [u8]]
        ensures texts { texts_in result.now ≡ texts_of self.now }
    {
        self.texts.as_slice()
    }

    /// The number of a name, which is noted where it was not there.
    pub fn number(&mut self, name: &'a [u8]) -> Result<usize, AllocError>
        requires indexed { IsIndexed self.old }
        ensures number { IfOk result (λ number. number ≡ spec.name_number (texts_of self.old) name.entry.now) }
        ensures noted { OnOk result (texts_of self.new ≡ spec.name_added (texts_of self.old) name.entry.now) }
        ensures indexed { OnOk result (IsIndexed self.new) }
    {
        if let Some(number) = find(&self.numbers, name) {
            return Ok(number);
        }
        let number = self.texts.len();
        self.texts.push(name)?;
        insert(&mut self.numbers, name, number)?;
        Ok(number)
    }
}

fn find<'a>(numbers: &BTreeMap<&'a [u8], usize>, name: &'a [u8]) -> Option<usize>
    ensures { result ≡ map_value numbers.now name.now }
{
    numbers.get(&name).copied()
}

// Notes a name that was not there.
fn insert<'a>(
    numbers: &mut BTreeMap<&'a [u8], usize>,
    name: &'a [u8],
    number: usize,
) -> Result<(), AllocError>
    ensures { OnOk result ((q : List ℕ) → map_value numbers.new q
        ≡ (if bytes_eq name.entry.now q then Some number else map_value numbers.old q)) }
{
    numbers.insert(name, number)?;
    Ok(())
}

/// A name as a string.
pub fn string_of(alloc: Global, name: &[u8]) -> Result<String, AllocError>
    requires { is_name name.now ≡ true }
    ensures { IfOk result (λ text. string_bytes text ≡ name.now) }
{
    match str::from_utf8(name) {
        Ok(text) => String::from_str(alloc, text),
        Err(_) => unreachable!(),
    }
}
