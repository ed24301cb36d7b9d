//! Symbols, and which are refused.

ghost use Rattle.std.specs.Prelude.{◌≡◌, ◌<◌, ◌^◌, IfOk, IfErr, OnOk, Some, None};
ghost use Rattle.elf_objects.specs.Passes.{IsFaultOf};
ghost use Rattle.elf_objects.specs.internal.Names.{AreNameEnds};
ghost use Rattle.elf_objects.specs.Symbol.{table_entry, count_in, strings_of, is_bad_common, is_bad_home, is_bad_symbol, symbol_fault, binding_of, home_of, symbol_of, symbols_header, count_of, faults_in, symbol_faults, symbols_in, symbols_of};

use crate::bytes::{byte_at, half_at, long_at};
use crate::fault::ElfFault;
use crate::header::section_count;
use crate::names::Names;
use crate::object::{Binding, Home, Span, Symbol};
use crate::passes::{first_below, refuse, refuse_if};
use crate::section::{Header, header_of, is_alignment, symbol_table};
use std::alloc::{AllocError, Global};

/// SHN_UNDEF.
const UNDEFINED: u16 = 0;
/// SHN_ABS.
const ABSOLUTE: u16 = 0xfff1;
/// SHN_COMMON.
const COMMON: u16 = 0xfff2;

/// The fields of a symbol's entry that are looked at.
#[derive(Clone, Copy)]
pub struct Entry {
    pub name: u32,
    pub value: u32,
    pub size: u32,
    pub binding: u8,
    pub section: u16,
}

#[tactic(auto, unfolding(crate::specs::Symbol::table_entry))]
fn table_entry(file: &[u8], table: &Header, index: u32) -> Entry
    ensures { result ≡ table_entry file.now table.now index }
{
    let at = table.offset as usize + 16 * index as usize;
    Entry {
        name: long_at(file, at),
        value: long_at(file, at + 4),
        size: long_at(file, at + 8),
        binding: byte_at(file, at + 12) / 16,
        section: half_at(file, at + 14),
    }
}

fn count_in(table: &Header) -> u32
    ensures { result ≡ count_in table.now }
{
    table.size / 16
}

fn strings_of(file: &[u8], table: &Header) -> Header
    ensures { result ≡ strings_of file.now table.now }
{
    header_of(file, table.link)
}

fn is_bad_common(e: &Entry) -> bool
    ensures { result ≡ is_bad_common e.now }
{
    e.section == COMMON && (e.binding == 0 || !is_alignment(e.value))
}

fn is_bad_home(file: &[u8], e: &Entry) -> bool
    ensures { result ≡ is_bad_home file.now e.now }
{
    !(e.section < section_count(file)) && e.section != ABSOLUTE && e.section != COMMON
}

fn is_bad_symbol(file: &[u8], table: &Header, names: &Names, e: &Entry) -> bool
    requires { AreNameEnds file.now (strings_of file.now table.now) names.now }
    ensures { result ≡ is_bad_symbol file.now table.now e.now }
{
    names.end(e.name).is_none() || 2 < e.binding || is_bad_home(file, e) || is_bad_common(e)
}

#[tactic(auto, unfolding(crate::specs::Symbol::symbol_fault))]
fn symbol_fault(file: &[u8], table: &Header, names: &Names, index: u32) -> Option<ElfFault>
    requires { AreNameEnds file.now (strings_of file.now table.now) names.now }
    ensures { result ≡ symbol_fault file.now table.now index }
{
    if index == 0 {
        return None;
    }
    let refused = is_bad_symbol(file, table, names, &table_entry(file, table, index));
    refuse_if(
        refused,
        ElfFault::Symbol {
            index: u64::from(index),
        },
    )
}

fn binding_of(number: u8) -> Binding
    ensures { result ≡ binding_of number }
{
    match number {
        0 => Binding::Local,
        1 => Binding::Global,
        _ => Binding::Weak,
    }
}

fn home_of(section: u16) -> Home
    ensures { result ≡ home_of section }
{
    match section {
        UNDEFINED => Home::Undefined,
        ABSOLUTE => Home::Absolute,
        COMMON => Home::Common,
        _ => Home::In(u32::from(section)),
    }
}

#[tactic(auto, unfolding(crate::specs::Symbol::symbol_of))]
fn symbol_of(file: &[u8], table: &Header, names: &Names, index: u32) -> Symbol
    requires { AreNameEnds file.now (strings_of file.now table.now) names.now }
    ensures { result ≡ symbol_of file.now table.now index }
{
    if index == 0 {
        return Symbol {
            name: Span { start: 0, end: 0 },
            value: 0,
            size: 0,
            binding: Binding::Local,
            home: Home::Undefined,
        };
    }
    let e = table_entry(file, table, index);
    Symbol {
        name: names.span(e.name),
        value: e.value,
        size: e.size,
        binding: binding_of(e.binding),
        home: home_of(e.section),
    }
}

/// The header of the file's symbol table, if there is one.
#[tactic(auto, unfolding(crate::specs::Symbol::symbols_header))]
pub fn symbols_header(file: &[u8]) -> Option<Header>
    ensures { result ≡ symbols_header file.now }
{
    match symbol_table(file) {
        None => None,
        Some(i) => Some(header_of(file, i)),
    }
}

/// How many symbols such a table has.
pub fn count_of(table: Option<Header>) -> u32
    ensures { result ≡ count_of table }
{
    match table {
        None => 0,
        Some(table) => count_in(&table),
    }
}

fn faults_in(file: &[u8], table: &Header, names: &Names) -> Option<ElfFault>
    requires { AreNameEnds file.now (strings_of file.now table.now) names.now }
    ensures { result ≡ faults_in file.now (Some table.now) }
{
    first_below(count_in(table), |k| symbol_fault(file, table, names, k))
}

#[tactic(auto, using(crate::proofs::PassLemmas::each_below_more, crate::proofs::PassLemmas::each_below_zero))]
fn symbols_in(
    alloc: Global,
    file: &[u8],
    table: &Header,
    names: &Names,
) -> Result<Vec<Symbol>, AllocError>
    requires { AreNameEnds file.now (strings_of file.now table.now) names.now }
    ensures { IfOk result (λ v. v.items ≡ symbols_in file.now (Some table.now)) }
{
    let mut symbols = Vec::with_capacity(alloc, count_in(table) as usize)?;
    for k in 0..count_in(table) {
        symbols.push(symbol_of(file, table, names, k))?;
    }
    Ok(symbols)
}

fn read_table(alloc: Global, file: &[u8], table: &Header) -> Result<Vec<Symbol>, ElfFault>
    ensures sound { OnOk result (faults_in file.now (Some table.now) ≡ None) }
    ensures list { IfOk result (λ v. v.items ≡ symbols_in file.now (Some table.now)) }
    ensures refusal { IfErr result (IsFaultOf (faults_in file.now (Some table.now))) }
{
    let names = Names::of(alloc, file, &strings_of(file, table))?;
    refuse(faults_in(file, table, &names))?;
    Ok(symbols_in(alloc, file, table, &names)?)
}

/// The symbols with their names.
#[tactic(auto, unfolding(crate::specs::Symbol::symbol_faults, crate::specs::Symbol::symbols_of))]
pub fn read_symbols(alloc: Global, file: &[u8]) -> Result<Vec<Symbol>, ElfFault>
    ensures sound { OnOk result (symbol_faults file.now ≡ None) }
    ensures list { IfOk result (λ v. v.items ≡ symbols_of file.now) }
    ensures refusal { IfErr result (IsFaultOf (symbol_faults file.now)) }
{
    match symbols_header(file) {
        None => Ok(Vec::new(alloc)),
        Some(table) => read_table(alloc, file, &table),
    }
}
