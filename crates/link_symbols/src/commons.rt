//! The names of the commons.

ghost use Rattle.std.specs.Prelude.{◌≡◌, ◌≤◌, ◌+◌, ◌^◌, ◌++◌, ℕ, List, length, IfOk, OnOk};
ghost use Rattle.link_symbols.specs.CommonNames.{borrowed, common_names};
ghost use Rattle.link_symbols.specs.Commons.{Common, common_at};
ghost use Rattle.link_symbols.specs.Names.{count_sections};
ghost use Rattle.link_symbols.specs.Passes.{numbered_object};
ghost use Rattle.link_symbols.specs.Symbols.{NamedValue, named_symbols_in};
ghost use Rattle.link_symbols.specs.internal.Founds.{is_common, with_name, FoundSoFar, CommonsNumbered};
ghost use Rattle.link_symbols.specs.internal.Maps.{name_entry};
ghost use Rattle.link_symbols.specs.internal.Values.{named_value};

use crate::names::Names;
use crate::symbol::{Named, symbol_at};
use elf_objects::Object;
use std::alloc::{AllocError, Global};

// Finds the name of a symbol that is the next common.
fn find_common<'a>(
    found: &mut Vec<&'a [u8]>,
    names: &Names<'a>,
    first_common: usize,
    s: Named<'a>,
) -> Result<(), AllocError>
    requires low { first_common ≤ 2 ^ 31 }
    ensures { OnOk result (borrowed found.new.items ≡ with_name
        (is_common names.now (named_value s.entry) (first_common + length (borrowed found.old.items)))
        (borrowed found.old.items) s.entry.name.now) }
{
    if names.is_common(s, first_common + found.len()) {
        found.push(s.name)?;
    }
    Ok(())
}

// The names of the commons that an object's symbols are the first to name.
fn find_commons<'a>(
    found: &mut Vec<&'a [u8]>,
    names: &Names<'a>,
    first_common: usize,
    object: &'a Object,
    number: usize,
    first: usize,
) -> Result<(), AllocError>
    requires small { first ≤ 2 ^ 31 }
    requires low { first_common ≤ 2 ^ 31 }
    ensures { OnOk result ((all : List Common) (rest : List NamedValue) →
        ((q : List ℕ) → name_entry names.now.commons q ≡ common_at first_common all q) →
        FoundSoFar names.now first_common all (borrowed found.old.items)
        (named_symbols_in (numbered_object number first object.entry.now) ++ rest) →
        FoundSoFar names.now first_common all (borrowed found.new.items) rest) }
{
    for (k, symbol) in object.symbols().iter().enumerate() {
        let named = symbol_at(object, number, first, k, *symbol);
        find_common(found, names, first_common, named)?;
    }
    Ok(())
}

// How many sections objects have.
fn section_count(objects: &[Object]) -> usize
    requires few { length objects.now ≤ 64 }
    ensures count { result ≡ count_sections objects.now }
    ensures low { result ≤ 2 ^ 31 }
{
    let mut count = 0;
    for object in objects {
        count += object.sections().len();
    }
    count
}

/// The names of the commons of all objects, in the order of their numbers.
pub fn commons_of<'a>(
    alloc: Global,
    names: &Names<'a>,
    objects: &'a [Object],
) -> Result<Vec<&'a [u8]>, AllocError>
    requires few { length objects.now ≤ 64 }
    requires numbered { CommonsNumbered names.now objects.now }
    ensures { IfOk result (λ found. borrowed found.items ≡ common_names objects.entry.now) }
{
    let first_common = section_count(objects);
    let mut found = Vec::new(alloc);
    let mut first = 0;
    for (number, object) in objects.iter().enumerate() {
        find_commons(&mut found, names, first_common, object, number, first)?;
        first += object.sections().len();
    }
    Ok(found)
}
