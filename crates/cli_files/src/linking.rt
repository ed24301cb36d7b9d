// Linking, and the symbol that a fault names.
ghost use Rattle.std.specs.Prelude.{◌≡◌, ◌≤◌, ◌==◌, All, length, map, IfOk, IfErr, OnOk, Some, None, slice_get, find, option_map, string_bytes};
ghost use Rattle.std.specs.Option.{option_copied};
ghost use Rattle.layout_file.specs.Layout.{layout_of};
ghost use Rattle.link_symbols.specs.Passes.{IsLinkFaultOf};
ghost use Rattle.linker.specs.Refusals.{link_fault_of};
ghost use Rattle.linker.specs.Room.{IsSmall};
ghost use Rattle.linker.specs.Image.{linked_image};
ghost use Rattle.cli_files.specs.NameText.{name_text};
ghost use Rattle.cli_files.specs.SymbolNames as spec;
ghost use Rattle.cli_files.specs.Unlinked.{IsUnlinked};

use crate::answers::{NO_MEMORY, Name, Refusal, Refused};
use elf_objects::Object;
use image_text::Image;
use layout_file::{Layout, VectorName};
use linker::{LinkFault, link};
use std::alloc::{AllocError, Global};

/// The image that the objects link to.
pub fn linked_image<'a>(
    alloc: Global,
    layout: &Layout,
    objects: &[Object],
) -> Result<Image, Refused<'a>>
    requires few { length objects.now ≤ 64 }
    requires small { All IsSmall objects.now }
    ensures sound { OnOk result (link_fault_of (layout_of layout.now) objects.now ≡ None) }
    ensures image { IfOk result (λ image. image ≡ linked_image (layout_of layout.now) objects.now) }
    ensures refused { IfErr result (λ refused. IsUnlinked (layout_of layout.now) objects.now refused.refusal
        (name_text refused.name)) }
{
    match link(alloc, layout, objects) {
        Ok(image) => Ok(image),
        Err(fault) => Err(unlinked(alloc, layout, objects, fault)),
    }
}

/// The refusal of objects that do not link for this fault.
pub fn unlinked<'a>(
    alloc: Global,
    layout: &Layout,
    objects: &[Object],
    fault: LinkFault,
) -> Refused<'a>
    requires { IsLinkFaultOf (link_fault_of (layout_of layout.now) objects.now) fault }
    ensures { IsUnlinked (layout_of layout.now) objects.now result.refusal (name_text result.name) }
{
    if let LinkFault::NoMemory = fault {
        return NO_MEMORY;
    }
    match symbol_name(alloc, layout, objects, fault) {
        Ok(name) => Refused {
            refusal: Refusal::Link(fault),
            name: Name::Symbol(name),
        },
        Err(_) => NO_MEMORY,
    }
}

// The name of the symbol that a fault of linking names, as it is shown.
#[tactic(auto, unfolding(crate::specs::SymbolNames::symbol_name))]
fn symbol_name(
    alloc: Global,
    layout: &Layout,
    objects: &[Object],
    fault: LinkFault,
) -> Result<String, AllocError>
    ensures { IfOk result (λ name. string_bytes name ≡ spec.symbol_name (layout_of layout.now) objects.now fault) }
{
    shown(alloc, name_in(layout, objects, fault).unwrap_or(b""))
}

fn name_in<'a>(layout: &'a Layout, objects: &'a [Object], fault: LinkFault) -> Option<&'a [u8]>
    ensures { option_copied result ≡ spec.name_in (layout_of layout.entry.now) objects.entry.now fault }
{
    match fault {
        LinkFault::Duplicate { object, symbol, .. } => symbol_of(objects, object, symbol),
        LinkFault::Undefined { object, symbol } => symbol_of(objects, object, symbol),
        LinkFault::NoVector { vector } => vector_name(layout, vector),
        LinkFault::NoEntry { module, entry } => entry_of(layout, module, entry),
        LinkFault::EntryElsewhere { module, entry } => entry_of(layout, module, entry),
        _ => None,
    }
}

fn symbol_of(objects: &[Object], object: u64, symbol: u64) -> Option<&[u8]>
    ensures { option_copied result ≡ spec.object_symbol_name (slice_get objects.entry.now object) symbol }
{
    let object = objects.get(object as usize)?;
    let symbol = object.symbols().get(symbol as usize)?;
    Some(object.part(symbol.name))
}

fn vector_name(layout: &Layout, number: u64) -> Option<&[u8]>
    ensures { option_copied result ≡ option_map (λ v. v.name) (find (λ v. v.vector == number)
        (layout_of layout.entry.now).vectors) }
{
    let vector = vector_with(layout.vectors.as_slice(), number)?;
    Some(vector.name.as_str().as_bytes())
}

// The name of this vector.
fn vector_with(vectors: &[VectorName], number: u64) -> Option<&VectorName>
    ensures { option_copied result ≡ find (λ v. v.vector == number) vectors.now }
{
    vectors
        .iter()
        .find(|vector| u64::from(vector.vector) == number)
}

fn entry_of(layout: &Layout, module: u64, entry: u64) -> Option<&[u8]>
    ensures { option_copied result ≡ spec.module_entry_name (slice_get (layout_of layout.entry.now).modules «module»)
        entry }
{
    let module = layout.modules.get(module as usize)?;
    let name = module.entries.get(entry as usize)?;
    Some(name.as_str().as_bytes())
}

// A name as it is shown.
fn shown(alloc: Global, name: &[u8]) -> Result<String, AllocError>
    ensures { IfOk result (λ shown. string_bytes shown ≡ map spec.shown_byte name.now) }
{
    let mut shown = String::new(alloc);
    for byte in name {
        shown.push(shown_byte(*byte) as char)?;
    }
    Ok(shown)
}

/// A byte of a name as it is shown: `?` where it is no visible character.
pub fn shown_byte(byte: u8) -> u8
    ensures { result ≡ spec.shown_byte byte }
{
    if byte.is_ascii_graphic() { byte } else { b'?' }
}
