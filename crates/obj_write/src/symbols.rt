//! The table of symbols and that of their names.

ghost use Rattle.std.specs.Prelude.{◌≡◌, ◌++◌, IfOk, OnOk, map, position};
ghost use Rattle.asm_text.specs.Views.{symbol_value};
ghost use Rattle.obj_write.specs.internal.Strings.{IsTableOf};
ghost use Rattle.obj_write.specs.Symbols.{info_of, home_index, symbol_entry, symbol_names, symbol_table_bytes, first_global};

use crate::bytes::{put_half, put_word};
use crate::strings::Strings;
use asm_text::AsmSymbol;
use std::alloc::{AllocError, Global};

/// The bytes of a symbol's entry.
pub const SYMBOL_SIZE: usize = 16;

/// Binding STB_LOCAL and type STT_NOTYPE.
pub const LOCAL_INFO: u8 = 0;

/// Binding STB_GLOBAL and type STT_NOTYPE.
pub const GLOBAL_INFO: u8 = 16;

fn info_of(global: bool) -> u8
    ensures { result ≡ info_of global }
{
    if global { GLOBAL_INFO } else { LOCAL_INFO }
}

fn home_index(home: Option<u32>) -> usize
    ensures { result ≡ home_index home }
{
    match home {
        None => 0,
        Some(section) => section as usize + 1,
    }
}

#[tactic(auto, unfolding(crate::specs::Symbols::symbol_entry))]
fn put_entry(out: &mut Vec<u8>, name: usize, symbol: &AsmSymbol) -> Result<(), AllocError>
    ensures { OnOk result (out.new.items ≡ out.old.items ++ symbol_entry name (symbol_value symbol.now)) }
{
    put_word(out, name)?;
    put_word(out, symbol.value as usize)?;
    put_word(out, 0)?;
    out.extend_from_slice(&[info_of(symbol.global), 0])?;
    put_half(out, home_index(symbol.home))?;
    Ok(())
}

/// The table of the symbols' names.
pub fn name_table(alloc: Global, symbols: &[AsmSymbol]) -> Result<Strings, AllocError>
    ensures { IfOk result (IsTableOf (symbol_names (map symbol_value symbols.now))) }
{
    let mut strings = Strings::new(alloc)?;
    for symbol in symbols {
        strings.add(symbol.name.as_bytes(), &[])?;
    }
    Ok(strings)
}

/// The table of the symbols.
pub fn symbol_table_bytes(
    alloc: Global,
    symbols: &[AsmSymbol],
    strings: &Strings,
) -> Result<Vec<u8>, AllocError>
    requires { IsTableOf (symbol_names (map symbol_value symbols.now)) strings.now }
    ensures { IfOk result (λ v. v.items ≡ symbol_table_bytes (map symbol_value symbols.now)) }
{
    let mut table = Vec::new(alloc);
    table.extend_from_slice(&[0; SYMBOL_SIZE])?;
    for (k, symbol) in symbols.iter().enumerate() {
        put_entry(&mut table, strings.place(k), symbol)?;
    }
    Ok(table)
}

fn position_of_global(symbols: &[AsmSymbol]) -> Option<usize>
    ensures { result ≡ position (λ s. s.global) symbols.now }
{
    symbols.iter().position(|symbol| symbol.global)
}

/// The index of the first global entry, or the number of entries where none is global.
#[tactic(auto, using(crate::proofs::SymbolLemmas::first_global_is))]
pub fn first_global(symbols: &[AsmSymbol]) -> usize
    ensures { result ≡ first_global (map symbol_value symbols.now) }
{
    1 + position_of_global(symbols).unwrap_or(symbols.len())
}
