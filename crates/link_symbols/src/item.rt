//! What is placed: the sections of all objects in order, then the commons.

ghost use Rattle.std.specs.Prelude.{◌≡◌, ◌+◌, ◌*◌, ◌<◌, ◌≤◌, ◌++◌, ◌^◌, List, Vec, length, map, string_bytes, OnOk, IfOk, IfErr, None};
ghost use Rattle.layout_file.specs.Views.{module_value};
ghost use Rattle.elf_objects.specs.Object.{ObjectValue, IsSectionHead};
ghost use Rattle.link_symbols.specs.internal.Layouts.{AreShort};
ghost use Rattle.link_symbols.specs.Parts.{code_part as code_part_of, data_part as data_part_of, is_named, part_in, part_of, item_of, items_in, section_items};
ghost use Rattle.mod_layout.specs.First.{first_in};
ghost use Rattle.link_symbols.specs.Passes.{IsLinkFaultOf, first_at, NumberedObject};
ghost use Rattle.link_symbols.specs.Passes.{numbered_object};
ghost use Rattle.link_symbols.specs.Refusals.{no_place_at, no_place_in, no_place};

use crate::fault::LinkFault;
use elf_objects::{Object, SectionHead};
use layout_file::ModuleSpec;
use std::alloc::Global;

/// A part of a region. Regions are numbered from 0 in the order of the layout: text, data, the text and the data of
/// module 0, and so on. The parts of a region stand one after another in rising rank.
#[derive(Clone, Copy, Debug, PartialEq, Eq)]
pub struct Part {
    pub region: usize,
    pub rank: u8,
}

/// A section or a common. What is in no part is not loaded.
#[derive(Clone, Copy, Debug, PartialEq, Eq)]
pub struct Item {
    pub part: Option<Part>,
    pub align: u32,
    pub size: u32,
}

const NOBITS: u32 = 8;

/// Where a module's code goes.
pub fn code_part(number: usize) -> Part
    requires { number < 2 ^ 32 }
    ensures { result ≡ code_part_of number }
{
    Part {
        region: 2 + 2 * number,
        rank: 0,
    }
}

/// Where a module's data go, and where its zeros go, after them.
pub fn data_part(number: usize, rank: u8) -> Part
    requires { number < 2 ^ 32 }
    ensures { result ≡ data_part_of number rank }
{
    Part {
        region: 3 + 2 * number,
        rank,
    }
}

/// Whether a name is `.sm.`, the module's name and this ending.
fn is_named(name: &[u8], own: &[u8], ending: &[u8]) -> bool
    requires own { length own.now ≤ 32 }
    requires ending { length ending.now ≤ 32 }
    ensures { result ≡ is_named name.now own.now ending.now }
{
    match name.strip_prefix(b".sm.".as_slice()) {
        None => false,
        Some(rest) => match rest.strip_prefix(own) {
            None => false,
            Some(rest) => rest == ending,
        },
    }
}

/// The part of a module that a name names, if it does.
#[tactic(auto, unfolding(crate::specs::Parts::part_in))]
fn part_in(number: usize, spec: &ModuleSpec, name: &[u8]) -> Option<Part>
    requires number { number < 2 ^ 32 }
    requires short { length (string_bytes spec.now.name) ≤ 32 }
    ensures { result ≡ part_in number (module_value spec.now) name.now }
{
    let own = spec.name.as_bytes();
    if is_named(name, own, b".text") {
        Some(code_part(number))
    } else if is_named(name, own, b".data") {
        Some(data_part(number, 0))
    } else if is_named(name, own, b".bss") {
        Some(data_part(number, 1))
    } else {
        None
    }
}

/// The part of a module that a name names.
#[tactic(auto, using(crate::proofs::Steps::first_at_map_step, crate::proofs::Steps::first_at_map_hit, crate::proofs::Steps::first_at_map_end))]
fn module_part(modules: &[ModuleSpec], name: &[u8]) -> Option<Part>
    requires few { length modules.now ≤ 32 }
    requires names { AreShort modules.now }
    ensures { result ≡ first_at (λ i m. part_in i m name.now) 0 (map module_value modules.now) }
{
    for (number, module) in modules.iter().enumerate() {
        if let Some(part) = part_in(number, module, name) {
            return Some(part);
        }
    }
    None
}

/// Where a loaded section goes.
#[tactic(auto, unfolding(crate::specs::Parts::part_of))]
fn part_of(modules: &[ModuleSpec], name: &[u8], head: SectionHead) -> Option<Part>
    requires few { length modules.now ≤ 32 }
    requires names { AreShort modules.now }
    ensures { result ≡ part_of (map module_value modules.now) name.now head }
{
    if name.starts_with(b".sm.") {
        return module_part(modules, name);
    }
    if head.flags % 2 == 0 {
        return Some(Part { region: 0, rank: 0 });
    }
    let rank = if head.kind == NOBITS { 1 } else { 0 };
    Some(Part { region: 1, rank })
}

/// A section as an item.
#[tactic(auto, unfolding(crate::specs::Parts::item_of))]
fn item_of(modules: &[ModuleSpec], object: &Object, head: SectionHead) -> Item
    requires few { length modules.now ≤ 32 }
    requires names { AreShort modules.now }
    requires section { IsSectionHead (length object.now.file) head }
    ensures { result ≡ item_of (map module_value modules.now) object.now head }
{
    let part = if head.is_loaded() {
        part_of(modules, object.part(head.name), head)
    } else {
        None
    };
    Item {
        part,
        align: head.align,
        size: head.size,
    }
}

/// A section as an item, unless it is loaded and goes nowhere.
#[tactic(auto, unfolding(crate::specs::Refusals::no_place_at))]
fn placed_item(
    modules: &[ModuleSpec],
    object: &Object,
    number: usize,
    first: usize,
    k: usize,
    head: SectionHead,
) -> Result<Item, LinkFault>
    requires few { length modules.now ≤ 32 }
    requires names { AreShort modules.now }
    requires section { IsSectionHead (length object.now.file) head }
    ensures item { IfOk result (λ i. i ≡ item_of (map module_value modules.now) object.now head) }
    ensures sound { OnOk result (no_place_at (map module_value modules.now) (numbered_object number first
        object.now) k head ≡ None) }
    ensures refusal { IfErr result (λ f. no_place_at (map module_value modules.now) (numbered_object number first
        object.now) k head ≡ Some f) }
{
    let item = item_of(modules, object, head);
    if head.is_loaded() && item.part.is_none() {
        return Err(LinkFault::NoPlace {
            object: number as u64,
            section: k as u64,
        });
    }
    Ok(item)
}

/// Adds the sections of an object.
#[tactic(auto, using(crate::proofs::Steps::first_at_step, crate::proofs::Steps::first_at_hit, crate::proofs::Steps::first_at_end))]
fn push_sections(
    items: &mut Vec<Item>,
    modules: &[ModuleSpec],
    object: &Object,
    number: usize,
    first: usize,
) -> Result<(), LinkFault>
    requires few { length modules.now ≤ 32 }
    requires names { AreShort modules.now }
    ensures items { OnOk result (items.new.items ≡ items.old.items ++ items_in (map module_value modules.now)
        object.now) }
    ensures sound { OnOk result (no_place_in (map module_value modules.now) (numbered_object number first
        object.now) ≡ None) }
    ensures refusal { IfErr result (IsLinkFaultOf (no_place_in (map module_value modules.now) (numbered_object number
        first object.now))) }
{
    for (k, head) in object.sections().iter().enumerate() {
        match placed_item(modules, object, number, first, k, *head) {
            Ok(item) => items.push(item)?,
            Err(fault) => return Err(fault),
        }
    }
    Ok(())
}

/// The sections of all objects.
#[tactic(auto, using(crate::proofs::Steps::first_in_step, crate::proofs::Steps::first_in_hit, crate::proofs::Steps::first_in_end), unfolding(crate::specs::Refusals::no_place))]
pub fn sections_of(
    alloc: Global,
    modules: &[ModuleSpec],
    objects: &[Object],
) -> Result<Vec<Item>, LinkFault>
    requires some { length objects.now ≤ 64 }
    requires few { length modules.now ≤ 32 }
    requires names { AreShort modules.now }
    ensures items { IfOk result (λ items. items.items ≡ section_items (map module_value modules.now) objects.now) }
    ensures sound { OnOk result (no_place (map module_value modules.now) objects.now ≡ None) }
    ensures refusal { IfErr result (IsLinkFaultOf (no_place (map module_value modules.now) objects.now)) }
{
    let mut items = Vec::new(alloc);
    let mut first = 0;
    for (number, object) in objects.iter().enumerate() {
        if let Err(fault) = push_sections(&mut items, modules, object, number, first) {
            return Err(fault);
        }
        first += object.sections().len();
    }
    Ok(items)
}
