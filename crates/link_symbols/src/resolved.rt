//! Sections, commons, names and symbols of all objects.

ghost use Rattle.std.specs.Prelude.{◌≡◌, ◌≤◌, ◌<◌, ℕ, List, [], length, map, IfOk, IfErr, OnOk, None, slice_index_or};
ghost use Rattle.layout_file.specs.Layout.{layout_of};
ghost use Rattle.link_symbols.specs.Passes.{IsLinkFaultOf, numbered_objects};
ghost use Rattle.link_symbols.specs.CommonNames.{borrowed, common_names};
ghost use Rattle.link_symbols.specs.Names.{stands_for};
ghost use Rattle.link_symbols.specs.Resolved.{items_of, meanings_of};
ghost use Rattle.link_symbols.specs.Refusals.{unresolved};
ghost use Rattle.link_symbols.specs.Symbols.{named_symbols};
ghost use Rattle.link_symbols.specs.internal.Founds.{CommonsNumbered};
ghost use Rattle.link_symbols.specs.internal.Groups.{names_fault, stand_fault};
ghost use Rattle.link_symbols.specs.internal.Layouts.{AreShort};
ghost use Rattle.link_symbols.specs.internal.Maps.{meaning_of_name, KnowsFirsts};
ghost use Rattle.link_symbols.specs.internal.Meanings.{AllOwnMeanings, AreMeanings};

use crate::check::{check_entries, check_places, check_symbols, check_vectors};
use crate::commons::commons_of;
use crate::fault::LinkFault;
use crate::item::{Item, sections_of};
use crate::names::{Names, names_of};
use crate::symbol::Meaning;
use elf_objects::Object;
use layout_file::Layout;
use std::alloc::{AllocError, Global};
use std::marker::Model;

/// Objects whose names are resolved: what is placed, and what names and symbols stand for.
#[derive(Drop)]
pub struct Resolved<'a> {
    objects: &'a [Object],
    names: Names<'a>,
    items: Vec<Item>,
    meanings: Vec<Vec<Option<Meaning>>>,
}

impl<'a> Model for Resolved<'a> {
    ghost use Rattle.std.specs.Prelude.{◌≡◌};
    ghost use Rattle.link_symbols.specs.Names.{stands_for};
    ghost use Rattle.link_symbols.specs.Resolved.{ResolvedValue};
    ghost use Rattle.link_symbols.specs.internal.Founds.{CommonsNumbered};
    ghost use Rattle.link_symbols.specs.internal.Maps.{meaning_of_name};
    ghost use Rattle.link_symbols.specs.internal.Meanings.{AreMeanings};

    ghost Value = { ResolvedValue };

    ghost view = { λ r. record { objects = r.objects.now; items = r.items.items } };

    ghost invariant = { λ r. (meaning_of_name r.names ≡ stands_for r.objects.now) × (AreMeanings (stands_for
        r.objects.now) r.objects.now r.meanings.items × CommonsNumbered r.names r.objects.now) };
}

impl<'a> Resolved<'a> {
    /// What a name stands for: its strong definition; else its common; else its first weak definition.
    pub fn stands_for(&self, name: &'a [u8]) -> Option<Meaning>
        ensures { result ≡ stands_for self.now.objects name.now }
    {
        self.names.stands_for(name)
    }

    /// What is placed: the sections of all objects in order, then the commons.
    pub fn items(&self) -> &[Item]
        ensures { result.now ≡ self.now.items }
    {
        &self.items
    }

    /// What the symbols of the object of this number stand for.
    pub fn meanings(&self, object: usize) -> &[Option<Meaning>]
        requires { object < length self.now.objects }
        ensures { result.now ≡ slice_index_or (meanings_of self.now.objects) object [] }
    {
        &self.meanings[object]
    }

    /// The names of the commons, in the order in which they are placed.
    pub fn commons(&self, alloc: Global) -> Result<Vec<&'a [u8]>, AllocError>
        requires few { length self.now.objects ≤ 64 }
        ensures { IfOk result (λ found. borrowed found.items ≡ common_names self.now.objects) }
    {
        commons_of(alloc, &self.names, self.objects)
    }

    /// What is placed, for a new owner.
    pub fn into_items(self) -> Vec<Item>
        ensures { result.items ≡ self.entry.items }
    {
        self.items
    }
}

// The names of all objects, and what is placed.
#[derive(Drop)]
struct Input<'a> {
    names: Names<'a>,
    items: Vec<Item>,
}

// Reads sections and names.
fn read_input<'a>(
    alloc: Global,
    layout: &Layout,
    objects: &'a [Object],
) -> Result<Input<'a>, LinkFault>
    requires few { length objects.now ≤ 64 }
    requires modules { length layout.now.modules.items ≤ 32 }
    requires names { AreShort layout.now.modules.items }
    ensures items { IfOk result (λ r. r.items.items ≡ items_of (layout_of layout.now) objects.entry.now) }
    ensures names { IfOk result (λ r. (q : List ℕ) → meaning_of_name r.names q
        ≡ stands_for objects.entry.now q) }
    ensures own { IfOk result (λ r. AllOwnMeanings (meaning_of_name r.names) (numbered_objects objects.entry.now)) }
    ensures firsts { IfOk result (λ r. KnowsFirsts r.names (named_symbols objects.entry.now)) }
    ensures numbered { IfOk result (λ r. CommonsNumbered r.names objects.entry.now) }
    ensures sound { OnOk result (names_fault (layout_of layout.now) objects.entry.now ≡ None) }
    ensures refusal { IfErr result (IsLinkFaultOf (names_fault (layout_of layout.now) objects.entry.now)) }
{
    let mut items = match sections_of(alloc, layout.modules.as_slice(), objects) {
        Ok(items) => items,
        Err(fault) => return Err(fault),
    };
    match names_of(alloc, &mut items, objects) {
        Ok(names) => Ok(Input { names, items }),
        Err(fault) => Err(fault),
    }
}

// What the symbols of each object stand for, where each name stands for what it must.
#[tactic(auto, unfolding(crate::specs::internal::Groups::stand_fault))]
fn check_names<'a>(
    alloc: Global,
    names: &Names<'a>,
    items: &[Item],
    layout: &'a Layout,
    objects: &'a [Object],
) -> Result<Vec<Vec<Option<Meaning>>>, LinkFault>
    requires few { length objects.now ≤ 64 }
    requires modules { length layout.now.modules.items ≤ 32 }
    requires own { AllOwnMeanings (meaning_of_name names.now) (numbered_objects objects.now) }
    requires firsts { KnowsFirsts names.now (named_symbols objects.now) }
    ensures sound { OnOk result (stand_fault (meaning_of_name names.now) items.now (layout_of layout.entry.now)
        objects.entry.now ≡ None) }
    ensures meanings { IfOk result (λ v. AreMeanings (meaning_of_name names.now) objects.entry.now v.items) }
    ensures refusal { IfErr result (IsLinkFaultOf (stand_fault (meaning_of_name names.now) items.now (layout_of
        layout.entry.now) objects.entry.now)) }
{
    let meanings = match check_symbols(alloc, names, objects) {
        Ok(meanings) => meanings,
        Err(fault) => return Err(fault),
    };
    if let Err(fault) = check_vectors(names, layout.vectors.as_slice()) {
        return Err(fault);
    }
    let modules = layout.modules.as_slice();
    if let Err(fault) = check_entries(names, modules) {
        return Err(fault);
    }
    if let Err(fault) = check_places(names, items, modules) {
        return Err(fault);
    }
    Ok(meanings)
}

/// Resolves the names of objects: each that is used has to stand for something, and entries for places of their module.
pub fn resolve<'a>(
    alloc: Global,
    layout: &'a Layout,
    objects: &'a [Object],
) -> Result<Resolved<'a>, LinkFault>
    requires few { length objects.now ≤ 64 }
    ensures objects { IfOk result (λ r. r.objects ≡ objects.entry.now) }
    ensures items { IfOk result (λ r. r.items ≡ items_of (layout_of layout.entry.now) objects.entry.now) }
    ensures sound { OnOk result (unresolved (layout_of layout.entry.now) objects.entry.now ≡ None) }
    ensures refusal { IfErr result (IsLinkFaultOf (unresolved (layout_of layout.entry.now) objects.entry.now)) }
{
    let input = match read_input(alloc, layout, objects) {
        Ok(input) => input,
        Err(fault) => return Err(fault),
    };
    let names = input.names;
    let items = input.items;
    match check_names(alloc, &names, items.as_slice(), layout, objects) {
        Ok(meanings) => Ok(Resolved {
            objects,
            names,
            items,
            meanings,
        }),
        Err(fault) => Err(fault),
    }
}
