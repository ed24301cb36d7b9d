//! Reads a layout table by table.
ghost use Rattle.std.specs.Prelude.{◌≡◌, ◌≢◌, ◌<◌, ◌≤◌, ◌==◌, ◌⊎◌, MatchResult, Ok, Err, IfOk, IfErr, length, map};
ghost use Rattle.toml.specs.View.{table_view};
ghost use Rattle.layout_file.specs.internal.Checked.{ReadsAs};
ghost use Rattle.layout_file.specs.Views.{module_value, modules_of};
ghost use Rattle.layout_file.specs.internal.Views.{table_members};
ghost use Rattle.layout_file.specs.Layout.{layout_of, LayoutOf};
ghost use Rattle.layout_file.specs.Layout as layout;
ghost use Rattle.mod_layout.specs.Table.{share_byte};
ghost use Rattle.layout_file.specs.Clashes.{first_clash as first_clash_of};
ghost use Rattle.layout_file.specs.Values.{regions as regions_in, module_names, boots_of};
ghost use Rattle.std.specs.Str.{bytes_eq};

use crate::clash::first_clash;
use crate::fault::{Key, LayoutFault, Spot};
use crate::layout::Layout;
use crate::parts::ModuleSpec;
use crate::rows::{
    Bounds, entries, integer, key_member, listed, name, section_member, tables, vectors,
};
use mod_layout::{DEVICES_END, FIRST_VECTOR, Section};
use std::alloc::Global;
use toml::Table;

/// The integers from `least` to `most`.
const fn between(least: u16, most: u16) -> Bounds
    ensures { result ≡ layout.between least most }
{
    Bounds {
        least,
        most,
        even: false,
    }
}

/// The even integers from `least` to `most`.
const fn evens(least: u16, most: u16) -> Bounds
    ensures { result ≡ layout.evens least most }
{
    Bounds {
        least,
        most,
        even: true,
    }
}

/// Where a region starts and ends: above the devices and below the vectors.
const REGION: Bounds = Bounds {
    least: DEVICES_END,
    most: FIRST_VECTOR,
    even: true,
};

/// A key of the top table.
fn at_top(key: Key) -> Spot
    ensures { result ≡ layout.at_top key }
{
    Spot { module: None, key }
}

/// A key of a module.
fn in_module(number: u32, key: Key) -> Spot
    ensures { result ≡ layout.in_module number key }
{
    Spot {
        module: Some(number),
        key,
    }
}

static TOP_KEYS: [Key; 7] = [
    Key::Version,
    Key::Key,
    Key::HandlerSp,
    Key::Text,
    Key::Data,
    Key::Vectors,
    Key::Module,
];

static MODULE_KEYS: [Key; 7] = [
    Key::Name,
    Key::Vendor,
    Key::Text,
    Key::Data,
    Key::Stack,
    Key::Entries,
    Key::Boot,
];

/// The keys of a module's table, in version 1 without the last.
fn module_keys(version: u16) -> &'static [Key]
    ensures { result.now ≡ layout.module_keys version }
{
    if version == 1 {
        &MODULE_KEYS[..6]
    } else {
        MODULE_KEYS.as_slice()
    }
}

/// When a module is protected.
fn module_boot(table: &Table, version: u16, number: u32) -> Result<u16, LayoutFault>
    requires { number < 32 }
    ensures { result ≡ layout.module_boot version number (table_view table.now) }
{
    if version == 1 {
        Ok(number as u16 + 1)
    } else {
        integer(table, in_module(number, Key::Boot), between(1, 32))
    }
}

/// The module of a table.
fn module(
    alloc: Global,
    table: &Table,
    version: u16,
    number: u32,
) -> Result<ModuleSpec, LayoutFault>
    requires { number < 32 }
    ensures { ReadsAs module_value result (layout.module_row version number (table_view table.now)) }
{
    listed(table, module_keys(version), Some(number))?;
    let name = name(alloc, table, in_module(number, Key::Name), 32)?;
    let vendor = integer(table, in_module(number, Key::Vendor), between(0, 65535))?;
    let text = section_member(table, in_module(number, Key::Text), REGION)?;
    let ram = section_member(table, in_module(number, Key::Data), REGION)?;
    let stack = integer(table, in_module(number, Key::Stack), evens(2, 32768))?;
    let entries = entries(alloc, table, in_module(number, Key::Entries), 64)?;
    let boot = module_boot(table, version, number)?;
    Ok(ModuleSpec {
        name,
        vendor,
        text,
        ram,
        stack,
        entries,
        boot,
    })
}

/// The modules of the tables, in order.
fn modules(alloc: Global, tables: &[&Table], version: u16) -> Result<Vec<ModuleSpec>, LayoutFault>
    requires { length tables.now ≤ 32 }
    ensures modules { ReadsAs modules_of result (layout.modules_in version (map (λ t. table_view t.now) tables.now)) }
    ensures few { IfOk result (λ v. length v.items ≤ 32) }
{
    let mut found = Vec::new(alloc);
    for (number, table) in tables.iter().enumerate() {
        found.push(module(alloc, table, version, number as u32)?)?;
    }
    Ok(found)
}

/// Refuses two regions that share a byte.
fn apart(regions: &[Section]) -> Result<(), LayoutFault>
    ensures { result ≡ layout.no_pair LayoutFault.Overlap (first_clash_of share_byte regions.now) }
{
    match first_clash(regions) {
        Some((first, second)) => Err(LayoutFault::Overlap {
            first: first as u64,
            second: second as u64,
        }),
        None => Ok(()),
    }
}

/// Refuses two names that are the same.
fn named_apart(names: &[&str]) -> Result<(), LayoutFault>
    ensures { result ≡ layout.no_pair LayoutFault.SameName (first_clash_of bytes_eq (map (λ n. n.now) names.now)) }
{
    match first_clash(names) {
        Some((first, second)) => Err(LayoutFault::SameName {
            first: first as u64,
            second: second as u64,
        }),
        None => Ok(()),
    }
}

/// Refuses two boots that are the same.
fn booted_apart(boots: &[u16]) -> Result<(), LayoutFault>
    ensures { result ≡ layout.no_pair LayoutFault.SameBoot (first_clash_of (λ a b. a == b) boots.now) }
{
    match first_clash(boots) {
        Some((first, second)) => Err(LayoutFault::SameBoot {
            first: first as u64,
            second: second as u64,
        }),
        None => Ok(()),
    }
}

/// The regions of a layout, in order.
fn regions(
    alloc: Global,
    text: Section,
    ram: Section,
    modules: &[ModuleSpec],
) -> Result<Vec<Section>, LayoutFault>
    ensures { MatchResult result (λ v. v.items ≡ regions_in text ram (map module_value modules.now))
        (λ e. e ≡ LayoutFault.NoMemory) }
{
    let mut regions = Vec::new(alloc);
    regions.push(text)?;
    regions.push(ram)?;
    for module in modules {
        regions.push(module.text)?;
        regions.push(module.ram)?;
    }
    Ok(regions)
}

/// The names of the modules, in order.
fn names(alloc: Global, modules: &[ModuleSpec]) -> Result<Vec<&str>, LayoutFault>
    ensures { MatchResult result (λ v. map (λ n. n.now) v.items ≡ module_names (map module_value modules.now))
        (λ e. e ≡ LayoutFault.NoMemory) }
{
    let mut names: Vec<&str> = Vec::new(alloc);
    for module in modules {
        names.push(module.name.as_str())?;
    }
    Ok(names)
}

/// The boots of the modules, in order.
fn boots(alloc: Global, modules: &[ModuleSpec]) -> Result<Vec<u16>, LayoutFault>
    ensures { MatchResult result (λ v. v.items ≡ boots_of (map module_value modules.now)) (λ e. e ≡
        LayoutFault.NoMemory) }
{
    let mut boots = Vec::new(alloc);
    for module in modules {
        boots.push(module.boot)?;
    }
    Ok(boots)
}

/// Refuses two regions that share a byte, two names that are the same, and two boots that are.
fn clear(
    alloc: Global,
    text: Section,
    ram: Section,
    modules: &[ModuleSpec],
) -> Result<(), LayoutFault>
    ensures { (result ≡ layout.clear text ram (map module_value modules.now)) ⊎ (result ≡ Err LayoutFault.NoMemory) }
{
    let regions = regions(alloc, text, ram, modules)?;
    let names = names(alloc, modules)?;
    let boots = boots(alloc, modules)?;
    apart(regions.as_slice())?;
    named_apart(names.as_slice())?;
    booted_apart(boots.as_slice())
}

/// How many modules a layout may have.
fn room_of(version: u16) -> u16
    ensures { result ≡ layout.room_of version }
{
    if version == 1 { 8 } else { 32 }
}

/// The layout of a document's table.
fn layout(alloc: Global, table: &Table) -> Result<Layout, LayoutFault>
    ensures { ReadsAs layout_of result (layout.layout_in (table_view table.now)) }
{
    listed(table, TOP_KEYS.as_slice(), None)?;
    let version = integer(table, at_top(Key::Version), between(1, 2))?;
    let key = key_member(table, at_top(Key::Key))?;
    let handler_sp = integer(table, at_top(Key::HandlerSp), evens(0, 65534))?;
    let text = section_member(table, at_top(Key::Text), REGION)?;
    let ram = section_member(table, at_top(Key::Data), REGION)?;
    let vectors = vectors(alloc, table, at_top(Key::Vectors))?;
    let room = room_of(version);
    let tables = tables(alloc, table, at_top(Key::Module), usize::from(room))?;
    let modules = modules(alloc, tables.as_slice(), version)?;
    clear(alloc, text, ram, modules.as_slice())?;
    Ok(Layout {
        room,
        key,
        handler_sp,
        text,
        ram,
        vectors,
        modules,
    })
}

/// Reads a layout: the layout of the text, or its first refusal, or there was no memory.
pub fn read_layout(alloc: Global, bytes: &[u8]) -> Result<Layout, LayoutFault>
    ensures layout { IfOk result (λ layout. LayoutOf bytes.now ≡ Ok (layout_of layout)) }
    ensures refused { IfErr result (λ fault. fault ≢ LayoutFault.NoMemory → LayoutOf bytes.now ≡ Err fault) }
{
    match toml::table_from_slice(alloc, bytes) {
        Ok(table) => layout(alloc, &table),
        Err(error) => {
            if error.is_memory() {
                Err(LayoutFault::NoMemory)
            } else {
                Err(LayoutFault::Utf8OrToml)
            }
        }
    }
}
