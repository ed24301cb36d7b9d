//! Objects linked, with where all of it stands.

ghost use Rattle.mod_layout.specs.declared.TheConstants.{FIRST_VECTOR};
ghost use Rattle.std.specs.Prelude.{◌≡◌, ◌≤◌, ◌+◌, ◌*◌, ℕ, length, map, IfOk, IfErr, OnOk, None, slice_index, All};
ghost use Rattle.layout_file.specs.Views.{module_value};
ghost use Rattle.layout_file.specs.Layout.{layout_of};
ghost use Rattle.link_symbols.specs.CommonNames.{borrowed, common_names};
ghost use Rattle.link_symbols.specs.Passes.{IsLinkFaultOf, numbered_objects};
ghost use Rattle.link_symbols.specs.Refusals.{no_place};
ghost use Rattle.link_symbols.specs.Resolved.{items_of};
ghost use Rattle.linker.specs.Image.{Links, linked_image};
ghost use Rattle.linker.specs.Linkage.{listed_numbers};
ghost use Rattle.linker.specs.Numbers.{linking_of, region_end, numbers_in};
ghost use Rattle.linker.specs.Refusals.{link_fault_of};
ghost use Rattle.linker.specs.Room.{IsSmall};
ghost use Rattle.linker.specs.internal.Groups.{fill_fault};
ghost use Rattle.linker.specs.internal.Layouts.{AreOrdered, IsOrdered};
ghost use Rattle.linker.specs.internal.Resolved.{linking_by};

use crate::image::{image_by, placed, tell_laws};
use crate::memory::numbers_of;
use crate::place::Placement;
use elf_objects::Object;
use image_text::Image;
use layout_file::Layout;
use link_symbols::{Item, LinkFault, Resolved, resolve};
use std::alloc::{AllocError, Global};

/// What objects link to, and where all of it stands.
#[derive(Drop)]
pub struct Linkage<'a> {
    pub image: Image,
    /// What is placed: the sections of all objects in order, then the commons.
    pub items: Vec<Item>,
    /// Where each item stands, and 0 for what is not placed.
    pub addresses: Vec<u64>,
    /// Where the contents of each region end.
    pub ends: Vec<u64>,
    /// The numbers of each object's symbols.
    pub numbers: Vec<Vec<u64>>,
    /// The names of the commons, in the order in which they are placed.
    pub commons: Vec<&'a [u8]>,
}

// The numbers of all symbols, each object's in a list.
fn all_numbers<'a>(
    alloc: Global,
    addresses: &[u64],
    resolved: &Resolved<'a>,
    objects: &'a [Object],
) -> Result<Vec<Vec<u64>>, AllocError>
    requires low { (k : ℕ) → slice_index addresses.now k ≤ 65536 }
    requires resolved { resolved.now.objects ≡ objects.now }
    ensures { IfOk result (λ all. listed_numbers all.items
        ≡ map (numbers_in (linking_by resolved.now.objects addresses.now)) (numbered_objects resolved.now.objects)) }
{
    let mut all = Vec::new(alloc);
    for number in 0..objects.len() {
        let numbers = numbers_of(alloc, addresses, resolved.meanings(number))?;
        all.push(numbers)?;
    }
    Ok(all)
}

// What is to be told of objects that link so.
fn tell_linkage<'a>(
    alloc: Global,
    image: Image,
    resolved: Resolved<'a>,
    placement: Placement,
    objects: &'a [Object],
) -> Result<Linkage<'a>, AllocError>
    requires few { length objects.now ≤ 64 }
    requires low { (k : ℕ) → slice_index placement.addresses.items k ≤ 65536 }
    requires resolved { resolved.objects ≡ objects.now }
    ensures image { IfOk result (λ w. w.image ≡ image) }
    ensures items { IfOk result (λ w. w.items.items ≡ resolved.entry.items) }
    ensures addresses { IfOk result (λ w. w.addresses ≡ placement.addresses) }
    ensures ends { IfOk result (λ w. w.ends ≡ placement.ends) }
    ensures numbers { IfOk result (λ w. listed_numbers w.numbers.items ≡ map (numbers_in (linking_by
        objects.entry.now placement.addresses.items)) (numbered_objects objects.entry.now)) }
    ensures commons { IfOk result (λ w. borrowed w.commons.items ≡ common_names objects.entry.now) }
{
    let commons = resolved.commons(alloc)?;
    let numbers = all_numbers(alloc, placement.addresses.as_slice(), &resolved, objects)?;
    Ok(Linkage {
        image,
        items: resolved.into_items(),
        addresses: placement.addresses,
        ends: placement.ends,
        numbers,
        commons,
    })
}

// What objects link to whose names are resolved.
fn linkage_by<'a>(
    alloc: Global,
    resolved: Resolved<'a>,
    layout: &'a Layout,
    objects: &'a [Object],
) -> Result<Linkage<'a>, LinkFault>
    requires few { length objects.now ≤ 64 }
    requires entries { All (λ m. length m.entries.items ≤ 64) layout.now.modules.items }
    requires order { AreOrdered layout.now.modules.items }
    requires outside { IsOrdered layout.now.text × IsOrdered layout.now.ram }
    requires modules { length layout.now.modules.items ≤ 32 }
    requires items { resolved.items ≡ items_of (layout_of layout.now) objects.now }
    requires resolved { resolved.objects ≡ objects.now }
    requires small { All IsSmall objects.now }
    requires somewhere { no_place (map module_value layout.now.modules.items) objects.now ≡ None }
    ensures linked { IfOk result (λ w. w.image ≡ linked_image (layout_of layout.entry.now) objects.entry.now) }
    ensures items { IfOk result (λ w. w.items.items ≡ items_of (layout_of layout.entry.now) objects.entry.now) }
    ensures addresses { IfOk result (λ w. slice_index w.addresses.items
        ≡ (linking_of (layout_of layout.entry.now) objects.entry.now).address) }
    ensures low { IfOk result (λ w. (k : ℕ) → slice_index w.addresses.items k ≤ 65536) }
    ensures ends { IfOk result (λ w. slice_index w.ends.items ≡ region_end (layout_of layout.entry.now)
        objects.entry.now) }
    ensures small { IfOk result (λ w. (r : ℕ) → slice_index w.ends.items r ≤ FIRST_VECTOR) }
    ensures regions { IfOk result (λ w. length w.ends.items ≡ 2 + 2 * length layout.entry.now.modules.items) }
    ensures numbers { IfOk result (λ w. listed_numbers w.numbers.items ≡ map (numbers_in (linking_of (layout_of
        layout.entry.now) objects.entry.now)) (numbered_objects objects.entry.now)) }
    ensures commons { IfOk result (λ w. borrowed w.commons.items ≡ common_names objects.entry.now) }
    ensures sound { OnOk result (fill_fault (region_end (layout_of layout.entry.now) objects.entry.now) (linking_of
        (layout_of layout.entry.now) objects.entry.now) (layout_of layout.entry.now) objects.entry.now ≡ None) }
    ensures refusal { IfErr result (IsLinkFaultOf (fill_fault (region_end (layout_of layout.entry.now)
        objects.entry.now) (linking_of (layout_of layout.entry.now) objects.entry.now) (layout_of
        layout.entry.now) objects.entry.now)) }
{
    tell_laws(objects);
    let placement = match placed(alloc, layout, resolved.items()) {
        Ok(placement) => placement,
        Err(fault) => return Err(fault),
    };
    let image = match image_by(alloc, &resolved, &placement, layout, objects) {
        Ok(image) => image,
        Err(fault) => return Err(fault),
    };
    match tell_linkage(alloc, image, resolved, placement, objects) {
        Ok(linkage) => Ok(linkage),
        Err(_) => Err(LinkFault::NoMemory),
    }
}

/// What the objects link to, all of them and the layout lent for as long.
pub fn linkage_of<'a>(
    alloc: Global,
    layout: &'a Layout,
    objects: &'a [Object],
) -> Result<Linkage<'a>, LinkFault>
    requires few { length objects.now ≤ 64 }
    requires small { All IsSmall objects.now }
    ensures links { IfOk result (λ w. Links (layout_of layout.entry.now) objects.entry.now w.image) }
    ensures items { IfOk result (λ w. w.items.items ≡ items_of (layout_of layout.entry.now) objects.entry.now) }
    ensures addresses { IfOk result (λ w. slice_index w.addresses.items
        ≡ (linking_of (layout_of layout.entry.now) objects.entry.now).address) }
    ensures low { IfOk result (λ w. (k : ℕ) → slice_index w.addresses.items k ≤ 65536) }
    ensures ends { IfOk result (λ w. slice_index w.ends.items ≡ region_end (layout_of layout.entry.now)
        objects.entry.now) }
    ensures small { IfOk result (λ w. (r : ℕ) → slice_index w.ends.items r ≤ FIRST_VECTOR) }
    ensures regions { IfOk result (λ w. length w.ends.items ≡ 2 + 2 * length layout.entry.now.modules.items) }
    ensures numbers { IfOk result (λ w. listed_numbers w.numbers.items ≡ map (numbers_in (linking_of (layout_of
        layout.entry.now) objects.entry.now)) (numbered_objects objects.entry.now)) }
    ensures commons { IfOk result (λ w. borrowed w.commons.items ≡ common_names objects.entry.now) }
    ensures sound { OnOk result (link_fault_of (layout_of layout.entry.now) objects.entry.now ≡ None) }
    ensures refusal { IfErr result (IsLinkFaultOf (link_fault_of (layout_of layout.entry.now) objects.entry.now)) }
{
    let resolved = match resolve(alloc, layout, objects) {
        Ok(resolved) => resolved,
        Err(fault) => return Err(fault),
    };
    linkage_by(alloc, resolved, layout, objects)
}

/// The image that the objects link to.
pub fn link(alloc: Global, layout: &Layout, objects: &[Object]) -> Result<Image, LinkFault>
    requires few { length objects.now ≤ 64 }
    requires small { All IsSmall objects.now }
    ensures sound { OnOk result (link_fault_of (layout_of layout.now) objects.now ≡ None) }
    ensures links { IfOk result (λ image. Links (layout_of layout.now) objects.now image) }
    ensures refusal { IfErr result (IsLinkFaultOf (link_fault_of (layout_of layout.now) objects.now)) }
{
    match linkage_of(alloc, layout, objects) {
        Ok(linkage) => Ok(linkage.image),
        Err(fault) => Err(fault),
    }
}
