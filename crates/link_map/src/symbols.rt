//! The commons, and the symbols in memory.

ghost use Rattle.std.specs.Prelude.{◌≡◌, ◌≤◌, ◌^◌, ◌++◌, ℕ, List, length, map, flat_map, slice_index, OnOk};
ghost use Rattle.elf_objects.specs.Object.{IsSymbol, IsHome};
ghost use Rattle.linker.specs.Linkage.{listed_numbers};
ghost use Rattle.link_symbols.specs.CommonNames.{borrowed};
ghost use Rattle.link_symbols.specs.Commons.{Common};
ghost use Rattle.linker.specs.Numbers.{Linking, numbers_in};
ghost use Rattle.link_symbols.specs.Passes.{numbered_objects, part};
ghost use Rattle.link_map.specs.Lines.{numbered_text};
ghost use Rattle.link_map.specs.Map.{is_shown, symbol_text_if, symbol_lines};
ghost use Rattle.link_map.specs.Map as spec;
ghost use Rattle.link_map.specs.internal.Values.{numbered_value, HasCommons};

use crate::lines::{MapText, Piece};
use crate::modules::id_at;
use crate::parts::Numbered;
use elf_objects::{Binding, Home, Object, Symbol};
use linker::{Linkage, address_of};
use mod_layout::ModuleTable;
use std::alloc::AllocError;

fn put_common(out: &mut MapText, at: u64, size: u32, name: &[u8]) -> Result<(), AllocError>
    requires { at ≤ 65536 }
    ensures { OnOk result (out.new.text.items ≡ out.old.text.items ++ spec.common_text at size name.now) }
{
    let words = [
        Piece::Address(at),
        Piece::Address(at + u64::from(size)),
        Piece::Name(name),
    ];
    out.put_line(b"common", &words)
}

/// A line for each common, whose items are numbered from `first` on.
pub fn put_commons(out: &mut MapText, linkage: &Linkage<'_>, first: usize) -> Result<(), AllocError>
    requires first { first ≤ 2 ^ 31 }
    requires low { (k : ℕ) → slice_index linkage.now.addresses.items k ≤ 65536 }
    requires commons { (commons : List Common) × HasCommons (borrowed linkage.now.commons.items)
        linkage.now.items.items first commons }
    ensures { OnOk result ((commons : List Common) → HasCommons (borrowed linkage.now.commons.items)
        linkage.now.items.items first commons → out.new.text.items ≡ out.old.text.items ++ numbered_text
        (spec.common_line (slice_index linkage.now.addresses.items) first) 0 commons) }
{
    for (k, name) in linkage.commons.iter().enumerate() {
        let item = first + k;
        let at = address_of(linkage.addresses.as_slice(), item);
        put_common(out, at, linkage.items[item].size, name)?;
    }
    Ok(())
}

fn kind_text(binding: Binding) -> &'static [u8]
    ensures { result.now ≡ spec.kind_text binding }
{
    match binding {
        Binding::Local => b"local",
        Binding::Global => b"global",
        Binding::Weak => b"weak",
    }
}

fn is_placed(object: &Object, home: Home) -> bool
    requires { IsHome (length object.now.sections) home }
    ensures { result ≡ spec.is_placed object.now home }
{
    match home {
        Home::Undefined => false,
        Home::Absolute => false,
        Home::Common => true,
        Home::In(k) => object.section(k).is_loaded(),
    }
}

fn put_symbol(
    out: &mut MapText,
    table: &ModuleTable,
    x: Numbered<'_>,
    symbol: Symbol,
    number: u64,
) -> Result<(), AllocError>
    requires symbol { IsSymbol (length x.object.now.file) (length x.object.now.sections) symbol }
    ensures { OnOk result (out.new.text.items ≡ out.old.text.items ++ spec.symbol_text table.now number symbol.binding
        x.entry.number (part x.entry.object.now symbol.name)) }
{
    let words = [
        Piece::Address(number),
        Piece::Number(id_at(table, number)),
        Piece::Word(kind_text(symbol.binding)),
        Piece::Number(x.number as u64),
        Piece::Name(x.object.part(symbol.name)),
    ];
    out.put_line(b"symbol", &words)
}

// A line for a symbol of this number, where it has one.
fn put_symbol_if(
    out: &mut MapText,
    table: &ModuleTable,
    x: Numbered<'_>,
    k: usize,
    symbol: Symbol,
    number: u64,
) -> Result<(), AllocError>
    requires symbol { IsSymbol (length x.object.now.file) (length x.object.now.sections) symbol }
    ensures { OnOk result (out.new.text.items ≡ out.old.text.items ++ symbol_text_if
        (is_shown x.entry.object.now k symbol)
        (spec.symbol_text table.now number symbol.binding x.entry.number (part x.entry.object.now symbol.name))) }
{
    if k > 0 && !x.object.part(symbol.name).is_empty() && is_placed(x.object, symbol.home) {
        put_symbol(out, table, x, symbol, number)?;
    }
    Ok(())
}

fn put_symbols_of(
    out: &mut MapText,
    table: &ModuleTable,
    x: Numbered<'_>,
    numbers: &[u64],
) -> Result<(), AllocError>
    requires count { length numbers.now ≡ length x.object.now.symbols }
    ensures { OnOk result ((l : Linking) → numbers.now ≡ numbers_in l (numbered_value x.entry) →
        out.new.text.items ≡ out.old.text.items ++ symbol_lines l table.now (numbered_value x.entry)) }
{
    let object = x.object;
    for (k, symbol) in object.symbols().iter().enumerate() {
        put_symbol_if(out, table, x, k, *symbol, numbers[k])?;
    }
    Ok(())
}

/// A line for each symbol in memory that has a name.
pub fn put_symbols(
    out: &mut MapText,
    table: &ModuleTable,
    objects: &[Object],
    numbers: &[Vec<u64>],
) -> Result<(), AllocError>
    requires few { length objects.now ≤ 64 }
    requires numbers { (l : Linking) × (listed_numbers numbers.now ≡ map (numbers_in l) (numbered_objects objects.now)) }
    ensures { OnOk result ((l : Linking) → listed_numbers numbers.now ≡ map (numbers_in l) (numbered_objects objects.now) →
        out.new.text.items ≡ out.old.text.items ++ flat_map (symbol_lines l table.now) (numbered_objects objects.now)) }
{
    let mut first = 0;
    for (number, object) in objects.iter().enumerate() {
        let own = numbers[number].as_slice();
        put_symbols_of(
            out,
            table,
            Numbered {
                object,
                number,
                first,
            },
            own,
        )?;
        first += object.sections().len();
    }
    Ok(())
}
