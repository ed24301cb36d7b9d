//! The whole map.

ghost use Rattle.mod_layout.specs.declared.TheConstants.{FIRST_VECTOR};
ghost use Rattle.std.specs.Prelude.{◌≡◌, ◌≤◌, ◌+◌, ◌*◌, ◌^◌, ◌++◌, ℕ, slice_index, map, length, flat_map, IfOk, IfErr, OnOk, None, All};
ghost use Rattle.layout_file.specs.Layout.{layout_of};
ghost use Rattle.layout_file.specs.Views.{vector_of};
ghost use Rattle.linker.specs.Image.{linked_image};
ghost use Rattle.linker.specs.Linkage.{listed_numbers};
ghost use Rattle.link_symbols.specs.CommonNames.{borrowed, common_names};
ghost use Rattle.link_symbols.specs.Names.{count_sections};
ghost use Rattle.linker.specs.Numbers.{linking_of, region_end, numbers_in};
ghost use Rattle.link_symbols.specs.Resolved.{items_of};
ghost use Rattle.link_symbols.specs.Passes.{numbered_objects, IsLinkFaultOf};
ghost use Rattle.linker.specs.Refusals.{link_fault_of};
ghost use Rattle.linker.specs.Room.{IsSmall};
ghost use Rattle.link_map.specs.Map.{map_text, vector_line};

use crate::lines::{MapText, Piece};
use crate::modules::{by_id, memory_word, put_entries, put_modules};
use crate::parts::put_parts;
use crate::symbols::{put_commons, put_symbols};
use elf_objects::Object;
use layout_file::{Layout, VectorName};
use link_symbols::LinkFault;
use linker::{Linkage, linkage_of};
use mod_layout::FIRST_VECTOR;
use std::alloc::{AllocError, Global};

fn put_vector(out: &mut MapText, memory: &[u8], vector: &VectorName) -> Result<(), AllocError>
    ensures { OnOk result (out.new.text.items ≡ out.old.text.items
        ++ vector_line memory.now (vector_of vector.now)) }
{
    let at = usize::from(FIRST_VECTOR) + 2 * usize::from(vector.vector);
    let name = vector.name.as_bytes();
    let words = [
        Piece::Number(u64::from(vector.vector)),
        Piece::Address(memory_word(memory, at)),
        Piece::Name(name),
    ];
    out.put_line(b"vector", &words)
}

// A line for each vector that the layout names.
fn put_vectors(out: &mut MapText, memory: &[u8], vectors: &[VectorName]) -> Result<(), AllocError>
    ensures { OnOk result (out.new.text.items ≡ out.old.text.items
        ++ flat_map (vector_line memory.now) (map vector_of vectors.now)) }
{
    for vector in vectors {
        put_vector(out, memory, vector)?;
    }
    Ok(())
}

// How many sections objects have.
fn section_count(objects: &[Object]) -> usize
    requires few { length objects.now ≤ 64 }
    ensures count { result ≡ count_sections objects.now }
    ensures low { result ≤ 2 ^ 31 }
{
    let mut count = 0;
    for object in objects {
        count += object.sections().len();
    }
    count
}

// The map of objects that link so.
fn text_of<'a>(
    alloc: Global,
    linkage: &Linkage<'a>,
    layout: &'a Layout,
    objects: &'a [Object],
) -> Result<Vec<u8>, AllocError>
    requires few { length objects.now ≤ 64 }
    requires image { linkage.now.image ≡ linked_image (layout_of layout.now) objects.now }
    requires items { linkage.now.items.items ≡ items_of (layout_of layout.now) objects.now }
    requires addresses { slice_index linkage.now.addresses.items ≡ (linking_of (layout_of layout.now) objects.now).address }
    requires low { (k : ℕ) → slice_index linkage.now.addresses.items k ≤ 65536 }
    requires ends { slice_index linkage.now.ends.items ≡ region_end (layout_of layout.now) objects.now }
    requires small { (r : ℕ) → slice_index linkage.now.ends.items r ≤ FIRST_VECTOR }
    requires regions { length linkage.now.ends.items ≡ 2 + 2 * length layout.now.modules.items }
    requires numbers { listed_numbers linkage.now.numbers.items
        ≡ map (numbers_in (linking_of (layout_of layout.now) objects.now)) (numbered_objects objects.now) }
    requires commons { borrowed linkage.now.commons.items ≡ common_names objects.now }
    ensures { IfOk result (λ text. text.items ≡ map_text (layout_of layout.entry.now) objects.entry.now) }
{
    let order = by_id(alloc, layout)?;
    let first_common = section_count(objects);
    let image = &linkage.image;
    let addresses = linkage.addresses.as_slice();
    let mut out = MapText::new(alloc);
    out.put(b"sancus-map 1\n")?;
    put_modules(&mut out, linkage.ends.as_slice(), order.as_slice())?;
    put_parts(&mut out, addresses, &image.table, objects)?;
    put_commons(&mut out, linkage, first_common)?;
    put_entries(&mut out, image.memory.as_slice(), order.as_slice())?;
    put_vectors(&mut out, image.memory.as_slice(), layout.vectors.as_slice())?;
    put_symbols(&mut out, &image.table, objects, linkage.numbers.as_slice())?;
    out.put(b"end\n")?;
    Ok(out.text)
}

// The same, from the layout and the objects.
fn map_in<'a>(
    alloc: Global,
    layout: &'a Layout,
    objects: &'a [Object],
) -> Result<Vec<u8>, LinkFault>
    requires few { length objects.now ≤ 64 }
    requires small { All IsSmall objects.now }
    ensures text { IfOk result (λ text. text.items ≡ map_text (layout_of layout.entry.now) objects.entry.now) }
    ensures sound { OnOk result (link_fault_of (layout_of layout.entry.now) objects.entry.now ≡ None) }
    ensures refusal { IfErr result (IsLinkFaultOf (link_fault_of (layout_of layout.entry.now) objects.entry.now)) }
{
    let linkage = match linkage_of(alloc, layout, objects) {
        Ok(linkage) => linkage,
        Err(fault) => return Err(fault),
    };
    match text_of(alloc, &linkage, layout, objects) {
        Ok(text) => Ok(text),
        Err(_) => Err(LinkFault::NoMemory),
    }
}

/// The map of the objects, where they link.
pub fn map_of(alloc: Global, layout: &Layout, objects: &[Object]) -> Result<Vec<u8>, LinkFault>
    requires few { length objects.now ≤ 64 }
    requires small { All IsSmall objects.now }
    ensures text { IfOk result (λ text. text.items ≡ map_text (layout_of layout.now) objects.now) }
    ensures sound { OnOk result (link_fault_of (layout_of layout.now) objects.now ≡ None) }
    ensures refusal { IfErr result (IsLinkFaultOf (link_fault_of (layout_of layout.now) objects.now)) }
{
    map_in(alloc, layout, objects)
}
