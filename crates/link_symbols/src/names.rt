//! What names stand for.

ghost use Rattle.std.specs.Prelude.{◌≡◌, ◌≤◌, ◌+◌, ◌*◌, ◌^◌, ◌++◌, List, [], ◌∷◌, ℕ, length, Some, None, OnOk, IfOk, IfErr, bytes_eq, fold, ◌<◌, slice_get, slice_set, true, map};
ghost use Rattle.elf_objects.specs.Object.{IsSymbol};
ghost use Rattle.link_symbols.specs.Passes.{NumberedObject, numbered_objects, IsLinkFaultOf, some_if};
ghost use Rattle.std.specs.Option.{option_or};
ghost use Rattle.link_symbols.specs.Passes.{numbered_object};
ghost use Rattle.link_symbols.specs.Commons.{common_item, commons_of, common_at, Common, with_common, with_symbol};
ghost use Rattle.link_symbols.specs.internal.Founds.{is_common};
ghost use Rattle.link_symbols.specs.internal.Values.{joined_item};
ghost use Rattle.link_symbols.specs.Names.{stands_by, stands_for};
ghost use Rattle.link_symbols.specs.Definitions.{weak_of, is_global, definition, definition_of, strong_of};
ghost use Rattle.link_symbols.specs.internal.Values.{named_value};
ghost use Rattle.link_symbols.specs.Symbols.{named_symbols_in, named_symbols, NamedValue};
ghost use Rattle.link_symbols.specs.internal.Maps.{last_bytes, name_entry, meaning_of_name, Notes, HoldsNames, HoldsCommons};
ghost use Rattle.link_symbols.specs.Refusals.{duplicate_by, duplicate_of, duplicate};
ghost use Rattle.link_symbols.specs.declared.item.Item.{Item};
ghost use Rattle.link_symbols.specs.declared.symbol.What.TheVariants as what;

use crate::fault::LinkFault;
use crate::item::{Item, Part};
use crate::symbol::{Meaning, Named, What, symbol_at};
use byteorder::{BigEndian, ByteOrder};
use elf_objects::{Binding, Object};
use std::alloc::{AllocError, Global};
use std::collections::BTreeMap;

/// A name in the maps. Its length and the number of its last bytes come first, so that most names are told apart without a
/// look at their bytes: names that begin alike are common.
type Key<'a> = (usize, u64, &'a [u8]);

/// The earliest strong definition of a name.
#[derive(Clone, Copy)]
pub struct Definition {
    pub object: usize,
    pub symbol: usize,
    pub meaning: Meaning,
}

/// The definitions of all objects, and the numbers of the commons.
#[derive(Drop)]
pub struct Names<'a> {
    strong: BTreeMap<Key<'a>, Definition>,
    weak: BTreeMap<Key<'a>, Meaning>,
    commons: BTreeMap<Key<'a>, u32>,
    // Of each symbol of all objects the first weak definition of its name, where it is one of them: names are long, and
    // to look one up is to compare it whole.
    firsts: Vec<Option<Meaning>>,
}

fn is_global(binding: Binding) -> bool
    ensures { result ≡ is_global binding }
{
    match binding {
        Binding::Global => true,
        _ => false,
    }
}

// The number of a name's last eight bytes, the last one lowest, so that names that count up stand in order; and 0 for a
// shorter name.
fn last_bytes(name: &[u8]) -> u64
    ensures { result ≡ last_bytes name.now }
{
    if name.len() < 8 {
        return 0;
    }
    BigEndian::read_u64(&name[name.len() - 8..])
}

// What a map has at a name.
fn find<'a, V: Copy>(map: &BTreeMap<Key<'a>, V>, name: &'a [u8]) -> Option<V>
    ensures { result ≡ name_entry map.now name.now }
{
    map.get(&(name.len(), last_bytes(name), name)).copied()
}

// Notes a weak definition, and gives the first one of its name.
fn note_weak<'a>(
    weak: &mut BTreeMap<Key<'a>, Meaning>,
    name: &'a [u8],
    meaning: Meaning,
) -> Result<Meaning, AllocError>
    ensures noted { OnOk result (Notes weak.old weak.new name.entry.now meaning) }
    ensures first { IfOk result (λ first. name_entry weak.new name.entry.now ≡ Some first) }
{
    if let Some(first) = find(weak, name) {
        return Ok(first);
    }
    weak.insert((name.len(), last_bytes(name), name), meaning)?;
    Ok(meaning)
}

// Notes a strong definition, and gives the one that was noted for its name.
fn note_strong<'a>(
    strong: &mut BTreeMap<Key<'a>, Definition>,
    name: &'a [u8],
    definition: Definition,
) -> Result<Option<Definition>, AllocError>
    ensures earlier { IfOk result (λ earlier. earlier ≡ name_entry strong.old name.entry.now) }
    ensures noted { OnOk result (name_entry strong.old name.entry.now ≡ None → Notes strong.old strong.new
        name.entry.now definition) }
{
    let earlier = strong.insert((name.len(), last_bytes(name), name), definition)?;
    Ok(earlier)
}

fn note_number<'a>(
    commons: &mut BTreeMap<Key<'a>, u32>,
    name: &'a [u8],
    number: u32,
) -> Result<(), AllocError>
    requires { name_entry commons.old name.now ≡ None }
    ensures { OnOk result (Notes commons.old commons.new name.entry.now number) }
{
    commons.insert((name.len(), last_bytes(name), name), number)?;
    Ok(())
}

// A strong definition, if its name has no earlier one.
fn note_first<'a>(
    strong: &mut BTreeMap<Key<'a>, Definition>,
    s: Named<'a>,
    meaning: Meaning,
) -> Result<(), LinkFault>
    ensures noted { OnOk result (Notes strong.old strong.new s.entry.name.now (definition (named_value s.entry)
        meaning)) }
    ensures sound { OnOk result (duplicate_by (named_value s.entry) (Some (definition (named_value s.entry) meaning))
        (name_entry strong.old s.entry.name.now) ≡ None) }
    ensures refusal { IfErr result (IsLinkFaultOf (duplicate_by (named_value s.entry) (Some (definition (named_value
        s.entry) meaning)) (name_entry strong.old s.entry.name.now))) }
{
    let definition = Definition {
        object: s.object,
        symbol: s.symbol,
        meaning,
    };
    match note_strong(strong, s.name, definition)? {
        None => Ok(()),
        Some(first) => Err(LinkFault::Duplicate {
            first_object: first.object as u64,
            first_symbol: first.symbol as u64,
            object: s.object as u64,
            symbol: s.symbol as u64,
        }),
    }
}

impl<'a> Names<'a> {
    #[tactic(auto, unfolding(crate::specs::Definitions::strong_of, crate::specs::Definitions::weak_of))]
    fn new(alloc: Global) -> Self
        ensures definitions { HoldsNames result [] }
        ensures commons { (q : List ℕ) → name_entry result.commons q ≡ None }
    {
        Names {
            strong: BTreeMap::new(alloc),
            weak: BTreeMap::new(alloc),
            commons: BTreeMap::new(alloc),
            firsts: Vec::new(alloc),
        }
    }

    /// What was kept of the symbols of all objects.
    pub fn firsts(&self) -> &[Option<Meaning>]
        ensures { result.now ≡ self.now.firsts.items }
    {
        &self.firsts
    }

    /// What a name stands for: its strong definition; else its common; else its first weak definition.
    pub fn stands_for(&self, name: &'a [u8]) -> Option<Meaning>
        ensures { result ≡ meaning_of_name self.now name.now }
    {
        self.stands_with(name, None)
    }

    /// The same, where the first weak definition may be known.
    pub fn stands_with(&self, name: &'a [u8], first: Option<Meaning>) -> Option<Meaning>
        requires { (m : Meaning) → first ≡ Some m → name_entry self.now.weak name.now ≡ Some m }
        ensures { result ≡ meaning_of_name self.now name.now }
    {
        if let Some(definition) = find(&self.strong, name) {
            return Some(definition.meaning);
        }
        if let Some(item) = find(&self.commons, name) {
            return Some(Meaning::Place { item, offset: 0 });
        }
        match first {
            Some(meaning) => Some(meaning),
            None => find(&self.weak, name),
        }
    }

    /// Whether a symbol is a common that is placed as the item of this number.
    pub fn is_common(&self, s: Named<'a>, number: usize) -> bool
        ensures { result ≡ is_common self.now (named_value s.entry) number }
    {
        let What::Common { .. } = s.what else {
            return false;
        };
        if let Some(_) = find(&self.strong, s.name) {
            return false;
        }
        match find(&self.commons, s.name) {
            Some(item) => item as usize == number,
            None => false,
        }
    }

    fn note_global(&mut self, s: Named<'a>, meaning: Meaning) -> Result<(), LinkFault>
        requires defined { definition_of (named_value s) ≡ Some meaning }
        requires global { is_global s.binding ≡ true }
        ensures noted { OnOk result ((before : List NamedValue) → HoldsNames self.old before → HoldsNames self.new
            (before ++ named_value s.entry ∷ [])) }
        ensures sound { OnOk result ((before : List NamedValue) → HoldsNames self.old before → duplicate_of before
            (named_value s.entry) ≡ None) }
        ensures refusal { IfErr result (λ f. (before : List NamedValue) → HoldsNames self.old before → IsLinkFaultOf
            (duplicate_of before (named_value s.entry)) f) }
        ensures commons { OnOk result (self.new.commons ≡ self.old.commons) }
    {
        if let Err(fault) = note_first(&mut self.strong, s, meaning) {
            return Err(fault);
        }
        self.firsts.push(None)?;
        Ok(())
    }

    fn note(&mut self, s: Named<'a>) -> Result<(), LinkFault>
        ensures noted { OnOk result ((before : List NamedValue) → HoldsNames self.old before → HoldsNames self.new
            (before ++ named_value s.entry ∷ [])) }
        ensures sound { OnOk result ((before : List NamedValue) → HoldsNames self.old before → duplicate_of before
            (named_value s.entry) ≡ None) }
        ensures refusal { IfErr result (λ f. (before : List NamedValue) → HoldsNames self.old before → IsLinkFaultOf
            (duplicate_of before (named_value s.entry)) f) }
        ensures commons { OnOk result (self.new.commons ≡ self.old.commons) }
    {
        match s.definition() {
            None => {
                self.firsts.push(None)?;
                Ok(())
            }
            Some(meaning) => {
                if is_global(s.binding) {
                    return self.note_global(s, meaning);
                }
                let first = note_weak(&mut self.weak, s.name, meaning)?;
                self.firsts.push(Some(first))?;
                Ok(())
            }
        }
    }

    fn note_all(&mut self, object: &'a Object, number: usize, first: usize) -> Result<(), LinkFault>
        requires small { first ≤ 2 ^ 31 }
        ensures noted { OnOk result ((before : List NamedValue) → HoldsNames self.old before → HoldsNames self.new
            (before ++ named_symbols_in (numbered_object number first object.entry.now))) }
        ensures sound { OnOk result ((before : List NamedValue) → HoldsNames self.old before → duplicate before
            (named_symbols_in (numbered_object number first object.entry.now)) ≡ None) }
        ensures refusal { IfErr result (λ f. (before : List NamedValue) → HoldsNames self.old before → IsLinkFaultOf
            (duplicate before (named_symbols_in (numbered_object number first object.entry.now))) f) }
        ensures commons { OnOk result (self.new.commons ≡ self.old.commons) }
    {
        for (k, symbol) in object.symbols().iter().enumerate() {
            if let Err(fault) = self.note(symbol_at(object, number, first, k, *symbol)) {
                return Err(fault);
            }
        }
        Ok(())
    }

    // A common: joined with the item of its name, or a new item.
    fn note_common(
        &mut self,
        items: &mut Vec<Item>,
        s: Named<'a>,
        size: u32,
        align: u32,
    ) -> Result<(), AllocError>
        requires known { (sections : List Item) × ((cs : List Common) × HoldsCommons self.old items.old.items
            sections cs) }
        ensures noted { OnOk result ((sections : List Item) (cs : List Common) → HoldsCommons self.old
            items.old.items sections cs → HoldsCommons self.new items.new.items sections (with_common
            (name_entry self.old.strong) cs (named_value s.entry) (what.Common size align))) }
        ensures strong { OnOk result (self.new.strong ≡ self.old.strong) }
        ensures weak { OnOk result (self.new.weak ≡ self.old.weak) }
        ensures firsts { OnOk result (self.new.firsts ≡ self.old.firsts) }
    {
        if find(&self.strong, s.name).is_some() {
            return Ok(());
        }
        match find(&self.commons, s.name) {
            Some(number) => join(items, number as usize, size, align),
            None => {
                let number = items.len();
                // More items than a number can count have no room.
                if number > u32::MAX as usize {
                    return Err(AllocError);
                }
                items.push(Item {
                    part: Some(Part { region: 1, rank: 2 }),
                    align,
                    size,
                })?;
                note_number(&mut self.commons, s.name, number as u32)?;
            }
        }
        Ok(())
    }

    fn note_if_common(&mut self, items: &mut Vec<Item>, s: Named<'a>) -> Result<(), AllocError>
        requires known { (sections : List Item) × ((cs : List Common) × HoldsCommons self.old items.old.items
            sections cs) }
        ensures noted { OnOk result ((sections : List Item) (cs : List Common) → HoldsCommons self.old
            items.old.items sections cs → HoldsCommons self.new items.new.items sections (with_symbol
            (name_entry self.old.strong) cs (named_value s.entry))) }
        ensures strong { OnOk result (self.new.strong ≡ self.old.strong) }
        ensures weak { OnOk result (self.new.weak ≡ self.old.weak) }
        ensures firsts { OnOk result (self.new.firsts ≡ self.old.firsts) }
    {
        if let What::Common { size, align } = s.what {
            self.note_common(items, s, size, align)?;
        }
        Ok(())
    }

    fn note_commons(
        &mut self,
        items: &mut Vec<Item>,
        object: &'a Object,
        number: usize,
        first: usize,
    ) -> Result<(), AllocError>
        requires known { (sections : List Item) × ((cs : List Common) × HoldsCommons self.old items.old.items
            sections cs) }
        requires small { first ≤ 2 ^ 31 }
        ensures noted { OnOk result ((sections : List Item) (cs : List Common) → HoldsCommons self.old
            items.old.items sections cs → HoldsCommons self.new items.new.items sections (fold (with_symbol
            (name_entry self.old.strong)) cs (named_symbols_in (numbered_object number first object.entry.now)))) }
        ensures strong { OnOk result (self.new.strong ≡ self.old.strong) }
        ensures weak { OnOk result (self.new.weak ≡ self.old.weak) }
        ensures firsts { OnOk result (self.new.firsts ≡ self.old.firsts) }
    {
        for (k, symbol) in object.symbols().iter().enumerate() {
            self.note_if_common(items, symbol_at(object, number, first, k, *symbol))?;
        }
        Ok(())
    }
}

// A common more of an item's name.
#[tactic(auto, using(std::proofs::lemmas::Option::get_or_from_slice_get))]
fn join(items: &mut Vec<Item>, number: usize, size: u32, align: u32)
    requires { number < length items.old.items }
    ensures { (item : Item) → slice_get items.old.items number ≡ Some item → items.new.items ≡ slice_set
        items.old.items number (joined_item item size align) }
{
    let item = items[number];
    items[number] = Item {
        part: item.part,
        align: item.align.max(align),
        size: item.size.max(size),
    };
}

// The definitions of all objects.
fn definitions_of<'a>(alloc: Global, objects: &'a [Object]) -> Result<Names<'a>, LinkFault>
    requires few { length objects.now ≤ 64 }
    ensures noted { IfOk result (λ names. HoldsNames names (named_symbols objects.entry.now)) }
    ensures commons { IfOk result (λ names. (q : List ℕ) → name_entry names.commons q ≡ None) }
    ensures sound { OnOk result (duplicate [] (named_symbols objects.entry.now) ≡ None) }
    ensures refusal { IfErr result (IsLinkFaultOf (duplicate [] (named_symbols objects.entry.now))) }
{
    let mut names = Names::new(alloc);
    let mut first = 0;
    for (number, object) in objects.iter().enumerate() {
        if let Err(fault) = names.note_all(object, number, first) {
            return Err(fault);
        }
        first += object.sections().len();
    }
    Ok(names)
}

// The commons of all objects.
fn gather_commons<'a>(
    names: &mut Names<'a>,
    items: &mut Vec<Item>,
    objects: &'a [Object],
) -> Result<(), AllocError>
    requires few { length objects.now ≤ 64 }
    requires fresh { (q : List ℕ) → name_entry names.old.commons q ≡ None }
    ensures commons { OnOk result (HoldsCommons names.new items.new.items items.old.items (fold (with_symbol
        (name_entry names.old.strong)) [] (named_symbols objects.entry.now))) }
    ensures strong { OnOk result (names.new.strong ≡ names.old.strong) }
    ensures weak { OnOk result (names.new.weak ≡ names.old.weak) }
    ensures firsts { OnOk result (names.new.firsts ≡ names.old.firsts) }
{
    let mut first = 0;
    for (number, object) in objects.iter().enumerate() {
        names.note_commons(items, object, number, first)?;
        first += object.sections().len();
    }
    Ok(())
}

/// The names of all objects; the commons become items.
pub fn names_of<'a>(
    alloc: Global,
    items: &mut Vec<Item>,
    objects: &'a [Object],
) -> Result<Names<'a>, LinkFault>
    requires few { length objects.now ≤ 64 }
    ensures sound { OnOk result (duplicate [] (named_symbols objects.entry.now) ≡ None) }
    ensures refusal { IfErr result (IsLinkFaultOf (duplicate [] (named_symbols objects.entry.now))) }
    ensures definitions { IfOk result (λ names. HoldsNames names (named_symbols objects.entry.now)) }
    ensures commons { IfOk result (λ names. HoldsCommons names items.new.items items.old.items (fold
        (with_symbol (name_entry names.strong)) [] (named_symbols objects.entry.now))) }
{
    let mut names = match definitions_of(alloc, objects) {
        Ok(names) => names,
        Err(fault) => return Err(fault),
    };
    gather_commons(&mut names, items, objects)?;
    Ok(names)
}
