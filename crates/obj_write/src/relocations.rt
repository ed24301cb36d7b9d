//! The tables of relocations.

ghost use Rattle.std.specs.Prelude.{◌≡◌, ◌<◌, ◌++◌, List, [], map, length, All, IfOk, OnOk};
ghost use Rattle.elf_objects.specs.Passes.{each_below};
ghost use Rattle.asm_text.specs.declared.unit.AsmRelocation.{AsmRelocation};
ghost use Rattle.obj_write.specs.Relocations.{relocation_entry, relocation_table, relocated_sections};

use crate::bytes::put_words;
use asm_text::AsmRelocation;
use std::alloc::{AllocError, Global};

/// R_MSP430_16_BYTE: a word at any address.
pub const WORD_FIELD: usize = 5;

#[tactic(auto, unfolding(crate::specs::Relocations::relocation_entry))]
fn put_entry(out: &mut Vec<u8>, relocation: &AsmRelocation) -> Result<(), AllocError>
    ensures { OnOk result (out.new.items ≡ out.old.items ++ relocation_entry relocation.now) }
{
    let info = (relocation.symbol as usize + 1) * 256 + WORD_FIELD;
    put_words(out, &[relocation.offset as usize, info, 0])
}

/// The relocations of each of so many sections.
pub fn tables_of(
    alloc: Global,
    relocations: &[AsmRelocation],
    count: usize,
) -> Result<Vec<Vec<u8>>, AllocError>
    requires { All (λ r. r.section < count) relocations.now }
    ensures { IfOk result (λ v. map (λ t. t.items) v.items ≡ each_below (relocation_table relocations.now) count) }
{
    let mut tables = empty_tables(alloc, count)?;
    for relocation in relocations {
        put_entry(&mut tables[relocation.section as usize], relocation)?;
    }
    Ok(tables)
}

// No relocations of any of so many sections.
fn empty_tables(alloc: Global, count: usize) -> Result<Vec<Vec<u8>>, AllocError>
    ensures { IfOk result (λ v. map (λ t. t.items) v.items ≡ each_below (relocation_table []) count) }
{
    let mut tables = Vec::new(alloc);
    for _section in 0..count {
        tables.push(Vec::new(alloc))?;
    }
    Ok(tables)
}

/// The sections that have relocations.
pub fn relocated_sections(alloc: Global, tables: &[Vec<u8>]) -> Result<Vec<usize>, AllocError>
    ensures { (relocations : List AsmRelocation) → map (λ t. t.items) tables.now
        ≡ each_below (relocation_table relocations) (length tables.now) →
        IfOk result (λ v. v.items ≡ relocated_sections relocations (length tables.now)) }
{
    let mut sections = Vec::new(alloc);
    for (i, table) in tables.iter().enumerate() {
        if !table.is_empty() {
            sections.push(i)?;
        }
    }
    Ok(sections)
}
