//! Section headers, what is loaded, and which sections are refused.

ghost use Rattle.std.specs.Prelude.{◌≡◌, length, ◌<◌, ◌≤◌, ◌^◌, ◌+◌};
ghost use Rattle.elf_objects.specs.Passes.{FaultIs};
ghost use Rattle.elf_objects.specs.Header.{section_count, name_table};
ghost use Rattle.elf_objects.specs.Section.{header_of, is_absent, is_loaded, is_loaded_header, is_alignment, content, ends_past, section_fault, is_kind, index_if, symbol_table, is_this, is_bad_symbol_table, is_kept_table, is_bad_kept_table, is_bad_link, link_fault, name_table_fault, compressed_fault, rel_fault, content_span, section_faults, link_faults, compressed_faults, rel_faults};

use crate::bytes::long_at;
use crate::fault::ElfFault;
use crate::header::{name_table, section_count, table_offset};
use crate::object::Span;
use crate::passes::{first_below, refuse, refuse_if};

const NULL: u32 = 0;

const SYMTAB: u32 = 2;

const STRTAB: u32 = 3;

const RELA: u32 = 4;

const NOBITS: u32 = 8;

const REL: u32 = 9;

/// The fields of a section's header that are looked at.
#[derive(Clone, Copy)]
pub struct Header {
    pub name: u32,
    pub kind: u32,
    pub flags: u32,
    pub offset: u32,
    pub size: u32,
    pub link: u32,
    pub info: u32,
    pub align: u32,
    pub entry_size: u32,
}

#[tactic(auto, unfolding(crate::specs::Section::header_of))]
pub fn header_of(file: &[u8], index: u32) -> Header
    ensures { result ≡ header_of file.now index }
{
    let at = table_offset(file) as usize + 40 * index as usize;
    Header {
        name: long_at(file, at),
        kind: long_at(file, at + 4),
        flags: long_at(file, at + 8),
        offset: long_at(file, at + 16),
        size: long_at(file, at + 20),
        link: long_at(file, at + 24),
        info: long_at(file, at + 28),
        align: long_at(file, at + 32),
        entry_size: long_at(file, at + 36),
    }
}

/// Whether a section of this kind with these flags is in the memory of the program.
pub fn is_loaded(kind: u32, flags: u32) -> bool
    ensures { result ≡ is_loaded kind flags }
{
    flags / 2 % 2 == 1
        && !(kind == NULL || kind == SYMTAB || kind == STRTAB || kind == RELA || kind == REL)
}

impl Header {
    pub fn is_absent(&self) -> bool
        ensures { result ≡ is_absent self.now }
    {
        self.kind == NULL || self.kind == NOBITS
    }

    pub fn is_loaded(&self) -> bool
        ensures { result ≡ is_loaded_header self.now }
    {
        is_loaded(self.kind, self.flags)
    }

    // Whether the section's bytes end past the file.
    fn ends_past(&self, file: &[u8]) -> bool
        ensures { result ≡ ends_past file.now self.now }
    {
        (file.len() as u64) < u64::from(self.offset) + u64::from(self.size)
    }

    /// The section's bytes, as far as they are in the file.
    pub fn content<'a>(&self, file: &'a [u8]) -> &'a [u8]
        ensures bytes { result.now ≡ content file.now self.now }
        ensures size { length result.now < 2 ^ 32 }
    {
        let start = (self.offset as usize).min(file.len());
        let size = (self.size as usize).min(file.len() - start);
        &file[start..start + size]
    }

    pub fn content_span(&self) -> Span
        ensures { result ≡ content_span self.now }
    {
        if self.is_absent() {
            return Span { start: 0, end: 0 };
        }
        let start = self.offset as usize;
        Span {
            start,
            end: start + self.size as usize,
        }
    }
}

/// Whether this is 0 or a power of two up to 32,768.
pub fn is_alignment(n: u32) -> bool
    ensures { result ≡ is_alignment n }
{
    n == 0
        || n == 1
        || n == 2
        || n == 4
        || n == 8
        || n == 16
        || n == 32
        || n == 64
        || n == 128
        || n == 256
        || n == 512
        || n == 1024
        || n == 2048
        || n == 4096
        || n == 8192
        || n == 16384
        || n == 32768
}

#[tactic(auto, unfolding(crate::specs::Section::section_fault))]
fn section_fault(file: &[u8], i: u32) -> Option<ElfFault>
    ensures { result ≡ section_fault file.now i }
{
    let h = header_of(file, i);
    let refused = (!h.is_absent() && h.ends_past(file))
        || (h.is_loaded() && !is_alignment(h.align));
    refuse_if(
        refused,
        ElfFault::Section {
            index: u64::from(i),
        },
    )
}

fn is_kind(file: &[u8], kind: u32, i: u32) -> bool
    ensures { result ≡ is_kind file.now kind i }
{
    i < u32::from(section_count(file)) && header_of(file, i).kind == kind
}

fn index_if(found: bool, i: u32) -> Option<u32>
    ensures { result ≡ index_if found i }
{
    if found { Some(i) } else { None }
}

/// The first SYMTAB.
#[tactic(auto, unfolding(crate::specs::Section::symbol_table))]
pub fn symbol_table(file: &[u8]) -> Option<u32>
    ensures { result ≡ symbol_table file.now }
{
    first_below(u32::from(section_count(file)), |i| {
        index_if(header_of(file, i).kind == SYMTAB, i)
    })
}

fn is_this(found: Option<u32>, i: u32) -> bool
    ensures { result ≡ is_this found i }
{
    match found {
        None => false,
        Some(s) => i == s,
    }
}

fn is_bad_symbol_table(file: &[u8], symbols: Option<u32>, i: u32, h: &Header) -> bool
    requires { symbols ≡ symbol_table file.now }
    ensures { result ≡ is_bad_symbol_table file.now i h.now }
{
    !is_this(symbols, i) || !is_kind(file, STRTAB, h.link) || h.entry_size != 16 || h.size % 16 != 0
}

/// Whether this is the RELA of a loaded section.
pub fn is_kept_table(file: &[u8], h: &Header) -> bool
    ensures { result ≡ is_kept_table file.now h.now }
{
    h.kind == RELA && header_of(file, h.info).is_loaded()
}

fn is_bad_kept_table(file: &[u8], symbols: Option<u32>, h: &Header) -> bool
    requires { symbols ≡ symbol_table file.now }
    ensures { result ≡ is_bad_kept_table file.now h.now }
{
    !is_this(symbols, h.link) || h.entry_size != 12 || h.size % 12 != 0
}

fn is_bad_link(file: &[u8], symbols: Option<u32>, i: u32, h: &Header) -> bool
    requires { symbols ≡ symbol_table file.now }
    ensures { result ≡ is_bad_link file.now i h.now }
{
    (i == u32::from(name_table(file)) && h.kind != STRTAB)
        || (h.kind == SYMTAB && is_bad_symbol_table(file, symbols, i, h))
        || ((h.kind == RELA || h.kind == REL) && !(h.info < u32::from(section_count(file))))
        || (is_kept_table(file, h) && is_bad_kept_table(file, symbols, h))
}

#[tactic(auto, unfolding(crate::specs::Section::link_fault))]
fn link_fault(file: &[u8], symbols: Option<u32>, i: u32) -> Option<ElfFault>
    requires { symbols ≡ symbol_table file.now }
    ensures { result ≡ link_fault file.now i }
{
    let refused = is_bad_link(file, symbols, i, &header_of(file, i));
    refuse_if(
        refused,
        ElfFault::Link {
            index: u64::from(i),
        },
    )
}

#[tactic(auto, unfolding(crate::specs::Section::name_table_fault))]
fn name_table_fault(file: &[u8]) -> Option<ElfFault>
    ensures { result ≡ name_table_fault file.now }
{
    let index = name_table(file);
    let refused = !(index < section_count(file));
    refuse_if(
        refused,
        ElfFault::Link {
            index: u64::from(index),
        },
    )
}

#[tactic(auto, unfolding(crate::specs::Section::compressed_fault))]
fn compressed_fault(file: &[u8], i: u32) -> Option<ElfFault>
    ensures { result ≡ compressed_fault file.now i }
{
    let h = header_of(file, i);
    let refused = h.is_loaded() && h.flags / 2048 % 2 == 1;
    refuse_if(
        refused,
        ElfFault::Compressed {
            index: u64::from(i),
        },
    )
}

#[tactic(auto, unfolding(crate::specs::Section::rel_fault))]
fn rel_fault(file: &[u8], i: u32) -> Option<ElfFault>
    ensures { result ≡ rel_fault file.now i }
{
    let h = header_of(file, i);
    let refused = h.kind == REL && header_of(file, h.info).is_loaded();
    refuse_if(
        refused,
        ElfFault::RelSection {
            index: u64::from(i),
        },
    )
}

/// Each section's bytes are in the file, and a loaded one's alignment is one.
#[tactic(auto, unfolding(crate::specs::Section::section_faults))]
pub fn check_sections(file: &[u8]) -> Result<(), ElfFault>
    ensures { FaultIs result (section_faults file.now) }
{
    let count = u32::from(section_count(file));
    refuse(first_below(count, |i| section_fault(file, i)))
}

/// Each section points to what it must.
#[tactic(auto, unfolding(crate::specs::Section::link_faults))]
pub fn check_links(file: &[u8]) -> Result<(), ElfFault>
    ensures { FaultIs result (link_faults file.now) }
{
    let count = u32::from(section_count(file));
    let symbols = symbol_table(file);
    refuse(first_below(count, |i| link_fault(file, symbols, i)))?;
    refuse(name_table_fault(file))
}

/// No loaded section is compressed.
#[tactic(auto, unfolding(crate::specs::Section::compressed_faults))]
pub fn check_compressed(file: &[u8]) -> Result<(), ElfFault>
    ensures { FaultIs result (compressed_faults file.now) }
{
    let count = u32::from(section_count(file));
    refuse(first_below(count, |i| compressed_fault(file, i)))
}

/// No loaded section has a REL.
#[tactic(auto, unfolding(crate::specs::Section::rel_faults))]
pub fn check_rel(file: &[u8]) -> Result<(), ElfFault>
    ensures { FaultIs result (rel_faults file.now) }
{
    let count = u32::from(section_count(file));
    refuse(first_below(count, |i| rel_fault(file, i)))
}
