//! Names that must stand for something.

ghost use Rattle.std.specs.Prelude.{◌≡◌, ◌≤◌, ◌<◌, ◌+◌, ◌*◌, ◌^◌, ℕ, List, length, map, IfOk, IfErr, OnOk, None, slice_index_or, true, false, All};
ghost use Rattle.layout_file.specs.Views.{module_value, vector_of, string_values};
ghost use Rattle.mod_layout.specs.First.{first_in};
ghost use Rattle.link_symbols.specs.Passes.{NumberedObject, numbered_objects, first_at, IsLinkFaultOf, FaultIs};
ghost use Rattle.link_symbols.specs.Passes.{numbered_object};
ghost use Rattle.link_symbols.specs.internal.Values.{named_value};
ghost use Rattle.link_symbols.specs.Symbols.{named_symbols_in, named_symbols};
ghost use Rattle.link_symbols.specs.Definitions.{is_global};
ghost use Rattle.link_symbols.specs.internal.Maps.{meaning_of_name, name_entry, IsFirst, AreFirsts, KnowsFirsts};
ghost use Rattle.link_symbols.specs.Names.{symbol_meaning};
ghost use Rattle.link_symbols.specs.internal.Meanings.{OwnMeaning, OwnMeanings, AllOwnMeanings};
ghost use Rattle.link_symbols.specs.Resolved.{meanings_in};
ghost use Rattle.link_symbols.specs.internal.Meanings.{AreMeanings, all_stand, gap_if, gaps};
ghost use Rattle.link_symbols.specs.Refusals.{is_used, undefined_in, undefined, no_vector, no_entry_in, no_entry, is_code_of, is_module_entry, elsewhere_in, elsewhere};

use crate::fault::LinkFault;
use crate::item::Item;
use crate::names::Names;
use crate::symbol::{Meaning, Named, What, symbol_at};
use elf_objects::{Binding, Object};
use layout_file::{ModuleSpec, VectorName};
use std::alloc::{AllocError, Global};

// What a global symbol's name stands for. Where the symbol defines it, no search is wanted.
fn global_meaning<'a>(names: &Names<'a>, s: Named<'a>) -> Option<Meaning>
    requires global { is_global s.binding ≡ true }
    requires own { OwnMeaning (meaning_of_name names.now) (named_value s) }
    ensures { result ≡ meaning_of_name names.now s.entry.name.now }
{
    match s.definition() {
        Some(meaning) => Some(meaning),
        None => names.stands_for(s.name),
    }
}

// What a relocation's symbol resolves to.
#[tactic(auto, unfolding(crate::specs::Names::symbol_meaning))]
fn symbol_meaning<'a>(names: &Names<'a>, s: Named<'a>, first: Option<Meaning>) -> Option<Meaning>
    requires own { OwnMeaning (meaning_of_name names.now) (named_value s) }
    requires first { IsFirst (name_entry names.now.weak) (named_value s) first }
    ensures { result ≡ symbol_meaning (meaning_of_name names.now) (named_value s.entry) }
{
    if s.symbol == 0 {
        return Some(Meaning::Number(0));
    }
    match s.binding {
        Binding::Local => match s.what {
            What::Defined(meaning) => Some(meaning),
            _ => None,
        },
        Binding::Global => global_meaning(names, s),
        Binding::Weak => Some(
            names
                .stands_with(s.name, first)
                .unwrap_or(Meaning::Number(0)),
        ),
    }
}

// Which symbols of an object its relocations use.
#[tactic(auto, using(crate::proofs::FoundLemmas::used_more, crate::proofs::FoundLemmas::used_none, crate::proofs::FoundLemmas::used_all))]
fn used_symbols(alloc: Global, object: &Object) -> Result<Vec<bool>, AllocError>
    ensures count { IfOk result (λ v. length v.items ≡ length object.now.symbols) }
    ensures used { IfOk result (λ v. (k : ℕ) → k < length object.now.symbols → slice_index_or v.items k false ≡
        is_used object.now.relocations k) }
{
    let mut used = vec![in alloc; false; object.symbols().len()]?;
    for place in 0..object.relocation_count() {
        used[object.relocation(place).symbol as usize] = true;
    }
    Ok(used)
}

// What the symbols of an object stand for.
fn meanings_of<'a>(
    alloc: Global,
    names: &Names<'a>,
    firsts: &[Option<Meaning>],
    object: &'a Object,
    number: usize,
    first: usize,
) -> Result<Vec<Option<Meaning>>, AllocError>
    requires small { first ≤ 2 ^ 31 }
    requires own { OwnMeanings (meaning_of_name names.now) (numbered_object number first object.now) }
    requires firsts { AreFirsts (name_entry names.now.weak) (named_symbols_in (numbered_object number first object.now))
        firsts.now }
    ensures { IfOk result (λ v. v.items ≡ meanings_in (meaning_of_name names.now) (numbered_object number first
        object.entry.now)) }
{
    let mut meanings = Vec::with_capacity(alloc, object.symbols().len())?;
    for (k, symbol) in object.symbols().iter().enumerate() {
        let named = symbol_at(object, number, first, k, *symbol);
        meanings.push(symbol_meaning(names, named, firsts[k]))?;
    }
    Ok(meanings)
}

// Whether each of them is something.
fn all_stand(meanings: &[Option<Meaning>]) -> bool
    ensures { result ≡ all_stand meanings.now }
{
    for meaning in meanings {
        if meaning.is_none() {
            return false;
        }
    }
    true
}

// A symbol that a relocation uses stands for something.
fn check_meaning(
    number: usize,
    k: usize,
    used: bool,
    meaning: Option<Meaning>,
) -> Result<(), LinkFault>
    ensures { FaultIs result (gap_if used number k meaning) }
{
    if used && meaning.is_none() {
        return Err(LinkFault::Undefined {
            object: number as u64,
            symbol: k as u64,
        });
    }
    Ok(())
}

// The relocations are not looked at where all symbols stand for something.
#[tactic(auto, using(crate::proofs::Steps::first_at_step, crate::proofs::Steps::first_at_hit, crate::proofs::Steps::first_at_end))]
fn check_used(
    alloc: Global,
    meanings: &[Option<Meaning>],
    object: &Object,
    number: usize,
) -> Result<(), LinkFault>
    requires count { length meanings.now ≡ length object.now.symbols }
    ensures sound { OnOk result (gaps number object.now.relocations meanings.now ≡ None) }
    ensures refusal { IfErr result (IsLinkFaultOf (gaps number object.now.relocations meanings.now)) }
{
    if all_stand(meanings) {
        return Ok(());
    }
    let used = used_symbols(alloc, object)?;
    for (k, meaning) in meanings.iter().enumerate() {
        if let Err(fault) = check_meaning(number, k, used[k], *meaning) {
            return Err(fault);
        }
    }
    Ok(())
}

// What the symbols of an object stand for, where each that a relocation uses stands for something.
fn check_object<'a>(
    alloc: Global,
    names: &Names<'a>,
    firsts: &[Option<Meaning>],
    object: &'a Object,
    number: usize,
    first: usize,
) -> Result<Vec<Option<Meaning>>, LinkFault>
    requires small { first ≤ 2 ^ 31 }
    requires own { OwnMeanings (meaning_of_name names.now) (numbered_object number first object.now) }
    requires firsts { AreFirsts (name_entry names.now.weak) (named_symbols_in (numbered_object number first object.now))
        firsts.now }
    ensures sound { OnOk result (undefined_in (meaning_of_name names.now) (numbered_object number first
        object.entry.now) ≡ None) }
    ensures meanings { IfOk result (λ v. v.items ≡ meanings_in (meaning_of_name names.now) (numbered_object
        number first object.entry.now)) }
    ensures refusal { IfErr result (IsLinkFaultOf (undefined_in (meaning_of_name names.now) (numbered_object number
        first object.entry.now))) }
{
    let meanings = match meanings_of(alloc, names, firsts, object, number, first) {
        Ok(meanings) => meanings,
        Err(_) => return Err(LinkFault::NoMemory),
    };
    if let Err(fault) = check_used(alloc, meanings.as_slice(), object, number) {
        return Err(fault);
    }
    Ok(meanings)
}

/// What the symbols of each object stand for, where each that a relocation uses stands for something.
#[tactic(auto, using(crate::proofs::Steps::first_in_step, crate::proofs::Steps::first_in_hit, crate::proofs::Steps::first_in_end), unfolding(crate::specs::Refusals::undefined))]
pub fn check_symbols<'a>(
    alloc: Global,
    names: &Names<'a>,
    objects: &'a [Object],
) -> Result<Vec<Vec<Option<Meaning>>>, LinkFault>
    requires few { length objects.now ≤ 64 }
    requires own { AllOwnMeanings (meaning_of_name names.now) (numbered_objects objects.now) }
    requires firsts { KnowsFirsts names.now (named_symbols objects.now) }
    ensures sound { OnOk result (undefined (meaning_of_name names.now) objects.entry.now ≡ None) }
    ensures meanings { IfOk result (λ v. AreMeanings (meaning_of_name names.now) objects.entry.now v.items) }
    ensures refusal { IfErr result (IsLinkFaultOf (undefined (meaning_of_name names.now) objects.entry.now)) }
{
    let mut meanings = Vec::new(alloc);
    let mut first = 0;
    let mut firsts = names.firsts();
    for (number, object) in objects.iter().enumerate() {
        let (own, later) = firsts.split_at(object.symbols().len());
        firsts = later;
        let found = match check_object(alloc, names, own, object, number, first) {
            Ok(found) => found,
            Err(fault) => return Err(fault),
        };
        meanings.push(found)?;
        first += object.sections().len();
    }
    Ok(meanings)
}

/// Each vector's name stands for something.
#[tactic(auto, using(crate::proofs::Steps::first_in_map_step, crate::proofs::Steps::first_in_map_hit, crate::proofs::Steps::first_in_map_end), unfolding(crate::specs::Refusals::no_vector))]
pub fn check_vectors<'a>(names: &Names<'a>, vectors: &'a [VectorName]) -> Result<(), LinkFault>
    ensures { FaultIs result (no_vector (meaning_of_name names.now) (map vector_of vectors.entry.now)) }
{
    for vector in vectors {
        if names.stands_for(vector.name.as_bytes()).is_none() {
            return Err(LinkFault::NoVector {
                vector: u64::from(vector.vector),
            });
        }
    }
    Ok(())
}

#[tactic(auto, using(crate::proofs::Steps::first_at_map_step, crate::proofs::Steps::first_at_map_hit, crate::proofs::Steps::first_at_map_end))]
fn check_entries_of<'a>(
    names: &Names<'a>,
    spec: &'a ModuleSpec,
    number: usize,
) -> Result<(), LinkFault>
    ensures { FaultIs result (no_entry_in (meaning_of_name names.now) number (module_value spec.entry.now)) }
{
    for (k, entry) in spec.entries.iter().enumerate() {
        if names.stands_for(entry.as_bytes()).is_none() {
            return Err(LinkFault::NoEntry {
                module: number as u64,
                entry: k as u64,
            });
        }
    }
    Ok(())
}

/// Each entry's name stands for something.
#[tactic(auto, using(crate::proofs::Steps::first_at_map_step, crate::proofs::Steps::first_at_map_hit, crate::proofs::Steps::first_at_map_end), unfolding(crate::specs::Refusals::no_entry))]
pub fn check_entries<'a>(names: &Names<'a>, modules: &'a [ModuleSpec]) -> Result<(), LinkFault>
    ensures { FaultIs result (no_entry (meaning_of_name names.now) (map module_value modules.entry.now)) }
{
    for (number, spec) in modules.iter().enumerate() {
        if let Err(fault) = check_entries_of(names, spec, number) {
            return Err(fault);
        }
    }
    Ok(())
}

// Whether this is an even place in a section of the module's code.
fn is_module_entry(items: &[Item], number: usize, meaning: Option<Meaning>) -> bool
    requires few { number < 2 ^ 32 }
    ensures { result ≡ is_module_entry items.now number meaning }
{
    match meaning {
        Some(Meaning::Place { item, offset }) => match items.get(item as usize) {
            Some(item) => is_code(*item, number) && offset % 2 == 0 && offset < item.size,
            None => false,
        },
        _ => false,
    }
}

// Whether an item is in the module's code.
fn is_code(item: Item, number: usize) -> bool
    requires few { number < 2 ^ 32 }
    ensures { result ≡ is_code_of number item.part }
{
    match item.part {
        None => false,
        Some(part) => part.region == 2 + 2 * number && part.rank == 0,
    }
}

#[tactic(auto, using(crate::proofs::Steps::first_at_map_step, crate::proofs::Steps::first_at_map_hit, crate::proofs::Steps::first_at_map_end))]
fn check_places_of<'a>(
    names: &Names<'a>,
    items: &[Item],
    spec: &'a ModuleSpec,
    number: usize,
) -> Result<(), LinkFault>
    requires few { number < 2 ^ 32 }
    ensures { FaultIs result (elsewhere_in (meaning_of_name names.now) items.now number (module_value
        spec.entry.now)) }
{
    for (k, entry) in spec.entries.iter().enumerate() {
        if !is_module_entry(items, number, names.stands_for(entry.as_bytes())) {
            return Err(LinkFault::EntryElsewhere {
                module: number as u64,
                entry: k as u64,
            });
        }
    }
    Ok(())
}

/// Each entry's name stands for an even place in the module's own code.
#[tactic(auto, using(crate::proofs::Steps::first_at_map_step, crate::proofs::Steps::first_at_map_hit, crate::proofs::Steps::first_at_map_end), unfolding(crate::specs::Refusals::elsewhere))]
pub fn check_places<'a>(
    names: &Names<'a>,
    items: &[Item],
    modules: &'a [ModuleSpec],
) -> Result<(), LinkFault>
    requires few { length modules.now ≤ 32 }
    ensures { FaultIs result (elsewhere (meaning_of_name names.now) items.now (map module_value modules.entry.now)) }
{
    for (number, spec) in modules.iter().enumerate() {
        if let Err(fault) = check_places_of(names, items, spec, number) {
            return Err(fault);
        }
    }
    Ok(())
}
