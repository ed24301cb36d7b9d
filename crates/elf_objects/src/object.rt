//! Objects: their sections, symbols and relocations.

ghost use Rattle.std.specs.Prelude.{◌≡◌, ◌≤◌, ◌<◌, ◌*◌, length, IfOk, IfErr, OnOk, None, slice_range, slice_get, List, All};
ghost use Rattle.elf_objects.specs.Passes.{IsFaultOf};
ghost use Rattle.elf_objects.specs.Section.{is_loaded};
ghost use Rattle.elf_objects.specs.Names.{sections_of};
ghost use Rattle.elf_objects.specs.Symbol.{symbols_of};
ghost use Rattle.elf_objects.specs.internal.Relocation.{ends_of};
ghost use Rattle.elf_objects.specs.Object.{ObjectValue, IsObject, IsSectionHead, IsSymbol, IsRelocation, elf_fault_of, contents_fault};

use crate::fault::ElfFault;
use crate::header::{check_header, check_table, section_count};
use crate::names::read_sections;
use crate::relocation::{read_ends, relocation_at};
use crate::section::{check_compressed, check_links, check_rel, check_sections, is_loaded};
use crate::symbol::read_symbols;
use std::alloc::Global;
use std::marker::Model;

/// The bytes of an object's file from `start` on, below `end`.
#[derive(Clone, Copy, Debug, PartialEq, Eq)]
pub struct Span {
    pub start: usize,
    pub end: usize,
}

/// A section: the fields of its header, with its name and its bytes. A section with no bytes in the
/// file, as one of zeros, has an empty span.
#[derive(Clone, Copy, Debug, PartialEq, Eq)]
pub struct SectionHead {
    pub name: Span,
    pub kind: u32,
    pub flags: u32,
    pub size: u32,
    pub align: u32,
    pub bytes: Span,
}

impl SectionHead {
    /// Whether the section is in the memory of the program: it has the alloc flag, and is none of
    /// the tables of symbols, names and relocations.
    pub fn is_loaded(&self) -> bool
        ensures loaded { result ≡ is_loaded self.now.kind self.now.flags }
    {
        is_loaded(self.kind, self.flags)
    }
}

/// How a symbol is visible to other objects.
#[derive(Clone, Copy, Debug, PartialEq, Eq)]
pub enum Binding {
    /// Not at all.
    Local,
    /// As the one definition of its name.
    Global,
    /// As a definition, where there is no global one.
    Weak,
}

/// Where a symbol lies.
#[derive(Clone, Copy, Debug, PartialEq, Eq)]
pub enum Home {
    /// In another object.
    Undefined,
    /// Nowhere: its value is a number.
    Absolute,
    /// In a section to be made, of its size and with its value as alignment.
    Common,
    /// In the section of this index, so many bytes from its start as its value says.
    In(u32),
}

/// A symbol. Symbol 0 has an empty name, and is undefined.
#[derive(Clone, Copy, Debug, PartialEq, Eq)]
pub struct Symbol {
    pub name: Span,
    pub value: u32,
    pub size: u32,
    pub binding: Binding,
    pub home: Home,
}

/// A relocation of a loaded section: the place `entry` of the section `table` says that the field of
/// this kind at `offset` of the section `target` is to be the symbol plus the addend.
#[derive(Clone, Copy, Debug, PartialEq, Eq)]
pub struct Relocation {
    pub table: u32,
    pub entry: u32,
    pub target: u32,
    pub offset: u32,
    pub symbol: u32,
    pub kind: u8,
    pub addend: i32,
}

/// An object file, with its sections and symbols by their index, and the relocations of its loaded
/// sections in order of table and entry. These stay in the file, and `ends` has how many there are up to the end of
/// each section: so the memory that an object takes grows with its file alone.
#[derive(Drop)]
pub struct Object {
    file: Vec<u8>,
    sections: Vec<SectionHead>,
    symbols: Vec<Symbol>,
    ends: Vec<usize>,
}

impl Model for Object {
    ghost use Rattle.std.specs.Prelude.{◌≡◌};
    ghost use Rattle.elf_objects.specs.Relocation.{relocations_of};
    ghost use Rattle.elf_objects.specs.internal.Relocation.{ends_of};
    ghost use Rattle.elf_objects.specs.Object.{ObjectValue, IsObject};

    ghost Value = { ObjectValue };

    ghost view = { λ o. record {
      file = o.file.items;
      sections = o.sections.items;
      symbols = o.symbols.items;
      relocations = relocations_of o.file.items;
    } };

    ghost invariant = { λ o. IsObject record {
      file = o.file.items;
      sections = o.sections.items;
      symbols = o.symbols.items;
      relocations = relocations_of o.file.items;
    } × (o.ends.items ≡ ends_of o.file.items) };
}

impl Object {
    /// Does nothing. Its contract gives a proof the laws of every object.
    pub fn laws(&self)
        ensures lawful { IsObject self.now }
    {
        let _file = self.file.as_slice();
    }

    /// The sections, by their index.
    pub fn sections(&self) -> &[SectionHead]
        ensures value { result.now ≡ self.now.sections }
        ensures within { All (IsSectionHead (length self.now.file)) result.now }
        ensures few { length result.now < 65536 }
    {
        let file = self.file.as_slice();
        let _count = section_count(file);
        &self.sections
    }

    /// The symbols, by their index.
    pub fn symbols(&self) -> &[Symbol]
        ensures value { result.now ≡ self.now.symbols }
        ensures within { All (IsSymbol (length self.now.file) (length self.now.sections)) result.now }
        ensures few { 16 * length result.now ≤ length self.now.file }
    {
        &self.symbols
    }

    /// How many relocations of loaded sections there are.
    pub fn relocation_count(&self) -> usize
        ensures count { result ≡ length self.now.relocations }
    {
        self.ends.last().copied().unwrap_or(0)
    }

    /// The section of this index.
    pub fn section(&self, index: u32) -> SectionHead
        requires there { index < length self.now.sections }
        ensures value { slice_get self.now.sections index ≡ Some result }
        ensures within { IsSectionHead (length self.now.file) result }
    {
        self.sections()[index as usize]
    }

    /// The symbol of this index.
    pub fn symbol(&self, index: u32) -> Symbol
        requires there { index < length self.now.symbols }
        ensures value { slice_get self.now.symbols index ≡ Some result }
        ensures within { IsSymbol (length self.now.file) (length self.now.sections) result }
    {
        self.symbols()[index as usize]
    }

    /// The relocation at this place of the list, which is in order of table and entry.
    pub fn relocation(&self, place: usize) -> Relocation
        requires there { place < length self.now.relocations }
        ensures value { slice_get self.now.relocations place ≡ Some result }
        ensures within { IsRelocation self.now.sections (length self.now.symbols) result }
    {
        relocation_at(self.file.as_slice(), self.ends.as_slice(), place)
    }

    /// The bytes of a span of the file.
    pub fn part(&self, span: Span) -> &[u8]
        requires ordered { span.start ≤ span.end }
        requires within { span.end ≤ length self.now.file }
        ensures bytes { result.now ≡ slice_range self.now.file span.start span.end }
    {
        &self.file[span.start..span.end]
    }
}

// What an object keeps beside its file.
#[derive(Drop)]
struct Contents {
    sections: Vec<SectionHead>,
    symbols: Vec<Symbol>,
    ends: Vec<usize>,
}

#[tactic(auto, unfolding(crate::specs::Object::contents_fault))]
fn read_contents(alloc: Global, file: &[u8]) -> Result<Contents, ElfFault>
    ensures sound { OnOk result (contents_fault file.now ≡ None) }
    ensures sections { IfOk result (λ c. c.sections.items ≡ sections_of file.now) }
    ensures symbols { IfOk result (λ c. c.symbols.items ≡ symbols_of file.now) }
    ensures ends { IfOk result (λ c. c.ends.items ≡ ends_of file.now) }
    ensures refusal { IfErr result (IsFaultOf (contents_fault file.now)) }
{
    check_sections(file)?;
    check_links(file)?;
    let sections = read_sections(alloc, file)?;
    check_compressed(file)?;
    check_rel(file)?;
    let symbols = read_symbols(alloc, file)?;
    let ends = read_ends(alloc, file)?;
    Ok(Contents {
        sections,
        symbols,
        ends,
    })
}

/// The object whose file the bytes are.
#[tactic(auto, unfolding(crate::specs::Object::elf_fault_of))]
pub fn parse(alloc: Global, bytes: Vec<u8>) -> Result<Object, ElfFault>
    ensures object { IfOk result IsObject }
    ensures file { IfOk result (λ o. o.file ≡ bytes.items) }
    ensures refusal { IfErr result (IsFaultOf (elf_fault_of bytes.items)) }
{
    let file = bytes.as_slice();
    check_header(file)?;
    if section_count(file) == 0 {
        return Ok(Object {
            file: bytes,
            sections: Vec::new(alloc),
            symbols: Vec::new(alloc),
            ends: Vec::new(alloc),
        });
    }
    check_table(file)?;
    let contents = read_contents(alloc, file)?;
    Ok(Object {
        file: bytes,
        sections: contents.sections,
        symbols: contents.symbols,
        ends: contents.ends,
    })
}
