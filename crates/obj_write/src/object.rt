//! The file of an object's parts.

ghost use Rattle.std.specs.Prelude.{◌≡◌, ◌+◌, ◌<◌, ◌^◌, ◌++◌, ℕ, List, map, length, IfOk, OnOk, None};
ghost use Rattle.elf_objects.specs.Passes.{each_below};
ghost use Rattle.elf_objects.specs.Object.{elf_fault_of, ObjectValue, IsObject};
ghost use Rattle.asm_text.specs.Unit.{unit_of};
ghost use Rattle.asm_text.specs.Views.{section_value};
ghost use Rattle.obj_write.specs.internal.Strings.{IsTableOf};
ghost use Rattle.obj_write.specs.Sections.{FileSection};
ghost use Rattle.obj_write.specs.internal.Sections.{AreSections};
ghost use Rattle.obj_write.specs.Symbols.{symbol_names, symbol_table_bytes};
ghost use Rattle.obj_write.specs.Relocations.{relocation_table};
ghost use Rattle.obj_write.specs.Object.{section_type, section_flags, part_names, table_names, relocation_names, part_head, symbols_head, strings_head, relocations_head, relocated_in, object_section_names, part_sections, table_sections, relocation_sections, file_sections, file_header, file_bytes, object_of};
ghost use Rattle.obj_write.specs.Reader.{IsObjectOf};

use crate::bytes::{put_half, put_word};
use crate::relocations::{relocated_sections, tables_of};
use crate::sections::{FILE_HEADER_SIZE, Head, SECTION_HEADER_SIZE, Sections};
use crate::strings::Strings;
use crate::symbols::{SYMBOL_SIZE, first_global, name_table, symbol_table_bytes};
use asm_text::{AsmSection, AsmUnit, SectionKind};
use std::alloc::{AllocError, Global};

/// SHT_PROGBITS.
pub const PROGBITS: usize = 1;
/// SHT_SYMTAB.
pub const SYMTAB: usize = 2;
/// SHT_STRTAB.
pub const STRTAB: usize = 3;
/// SHT_RELA.
pub const RELA: usize = 4;
/// SHT_NOBITS.
pub const NOBITS: usize = 8;

/// SHF_WRITE and SHF_ALLOC.
pub const WRITE_ALLOC: usize = 3;
/// SHF_ALLOC and SHF_EXECINSTR.
pub const ALLOC_EXECUTE: usize = 6;

/// What the addresses of code and data are multiples of.
pub const SECTION_ALIGN: usize = 2;
/// What the places of tables are multiples of.
pub const TABLE_ALIGN: usize = 4;

/// The bytes of a relocation with its addend.
pub const RELOCATION_SIZE: usize = 12;

/// ET_REL.
pub const RELOCATABLE: usize = 1;
/// EM_MSP430.
pub const MSP430: usize = 105;

fn section_type(kind: SectionKind) -> usize
    ensures { result ≡ section_type kind }
{
    match kind {
        SectionKind::Code | SectionKind::Data => PROGBITS,
        SectionKind::Bss => NOBITS,
    }
}

fn section_flags(kind: SectionKind) -> usize
    ensures { result ≡ section_flags kind }
{
    match kind {
        SectionKind::Code => ALLOC_EXECUTE,
        SectionKind::Data | SectionKind::Bss => WRITE_ALLOC,
    }
}

// The names of the unit's sections.
fn name_parts(strings: &mut Strings, sections: &[AsmSection]) -> Result<(), AllocError>
    ensures { OnOk result ((names : List (List ℕ)) → IsTableOf names strings.old →
        IsTableOf (names ++ part_names (map section_value sections.now)) strings.new) }
{
    for section in sections {
        strings.add(section.name.as_bytes(), &[])?;
    }
    Ok(())
}

// The names of the three tables that each file has.
fn name_tables(strings: &mut Strings) -> Result<(), AllocError>
    ensures { OnOk result ((names : List (List ℕ)) → IsTableOf names strings.old →
        IsTableOf (names ++ table_names) strings.new) }
{
    strings.add(b".symtab", &[])?;
    strings.add(b".strtab", &[])?;
    strings.add(b".shstrtab", &[])?;
    Ok(())
}

// The names of the tables of relocations.
fn name_relocations(
    strings: &mut Strings,
    unit: &AsmUnit,
    relocated: &[usize],
) -> Result<(), AllocError>
    requires { relocated.now ≡ relocated_in (unit_of unit.now) }
    ensures { OnOk result ((names : List (List ℕ)) → IsTableOf names strings.old →
        IsTableOf (names ++ relocation_names (unit_of unit.now)) strings.new) }
{
    for i in relocated {
        strings.add(b".rela", unit.sections[*i].name.as_bytes())?;
    }
    Ok(())
}

// The names of all sections after section 0.
fn name_sections(alloc: Global, unit: &AsmUnit, relocated: &[usize]) -> Result<Strings, AllocError>
    requires { relocated.now ≡ relocated_in (unit_of unit.now) }
    ensures { IfOk result (IsTableOf (object_section_names (unit_of unit.now))) }
{
    let mut strings = Strings::new(alloc)?;
    name_parts(&mut strings, &unit.sections)?;
    name_tables(&mut strings)?;
    name_relocations(&mut strings, unit, relocated)?;
    Ok(strings)
}

// The header of a section of the unit.
fn part_head(section: &AsmSection, name: usize) -> Head
    ensures { result ≡ part_head (section_value section.now) name }
{
    Head {
        name,
        kind: section_type(section.kind),
        flags: section_flags(section.kind),
        offset: 0,
        size: section.size as usize,
        link: 0,
        info: 0,
        align: SECTION_ALIGN,
        entry_size: 0,
    }
}

// The sections of the unit.
fn parts_of(alloc: Global, unit: &AsmUnit, names: &Strings) -> Result<Sections, AllocError>
    requires { IsTableOf (object_section_names (unit_of unit.now)) names.now }
    ensures { IfOk result (AreSections (part_sections (unit_of unit.now))) }
{
    let mut sections = Sections::new(alloc);
    for (i, section) in unit.sections.iter().enumerate() {
        sections.add(part_head(section, names.place(i)), &section.bytes)?;
    }
    Ok(sections)
}

// The header of a string table.
fn strings_head(name: usize, size: usize) -> Head
    ensures { result ≡ strings_head name size }
{
    Head {
        name,
        kind: STRTAB,
        flags: 0,
        offset: 0,
        size,
        link: 0,
        info: 0,
        align: TABLE_ALIGN,
        entry_size: 0,
    }
}

// The header of the table of symbols.
fn symbols_head(name: usize, size: usize, unit: &AsmUnit) -> Head
    ensures { result ≡ symbols_head name size (unit_of unit.now) }
{
    Head {
        name,
        kind: SYMTAB,
        flags: 0,
        offset: 0,
        size,
        link: unit.sections.len() + 2,
        info: first_global(&unit.symbols),
        align: TABLE_ALIGN,
        entry_size: SYMBOL_SIZE,
    }
}

// The tables of symbols, of their names and of the sections' names.
fn add_tables(
    sections: &mut Sections,
    unit: &AsmUnit,
    names: &Strings,
    strings: &Strings,
    symbols: &[u8],
) -> Result<(), AllocError>
    requires names { IsTableOf (object_section_names (unit_of unit.now)) names.now }
    requires strings { IsTableOf (symbol_names (unit_of unit.now).symbols) strings.now }
    requires symbols { symbols.now ≡ symbol_table_bytes (unit_of unit.now).symbols }
    ensures { OnOk result ((done : List FileSection) → AreSections done sections.old →
        AreSections (done ++ table_sections (unit_of unit.now)) sections.new) }
{
    let count = unit.sections.len();
    let head = symbols_head(names.place(count), symbols.len(), unit);
    sections.add(head, symbols)?;
    let head = strings_head(names.place(count + 1), strings.bytes.len());
    sections.add(head, &strings.bytes)?;
    let head = strings_head(names.place(count + 2), names.bytes.len());
    sections.add(head, &names.bytes)?;
    Ok(())
}

// The header of the relocations of a section.
fn relocations_head(name: usize, size: usize, symbols: usize, section: usize) -> Head
    requires { section < 2 ^ 63 }
    ensures { result ≡ relocations_head name size symbols section }
{
    Head {
        name,
        kind: RELA,
        flags: 0,
        offset: 0,
        size,
        link: symbols,
        info: section + 1,
        align: TABLE_ALIGN,
        entry_size: RELOCATION_SIZE,
    }
}

// The tables of relocations.
fn add_relocations(
    sections: &mut Sections,
    unit: &AsmUnit,
    names: &Strings,
    relocated: &[usize],
    tables: &[Vec<u8>],
) -> Result<(), AllocError>
    requires names { IsTableOf (object_section_names (unit_of unit.now)) names.now }
    requires relocated { relocated.now ≡ relocated_in (unit_of unit.now) }
    requires tables { map (λ t. t.items) tables.now ≡ each_below (relocation_table (unit_of unit.now).relocations)
        (length (unit_of unit.now).sections) }
    ensures { OnOk result ((done : List FileSection) → AreSections done sections.old →
        AreSections (done ++ relocation_sections (unit_of unit.now)) sections.new) }
{
    let count = unit.sections.len();
    for (j, i) in relocated.iter().enumerate() {
        let table = &tables[*i];
        let head = relocations_head(names.place(count + 3 + j), table.len(), count + 1, *i);
        sections.add(head, table)?;
    }
    Ok(())
}

// The file's header.
#[tactic(auto, unfolding(crate::specs::Object::file_header))]
fn put_header(out: &mut Vec<u8>, table: usize, count: usize, names: usize) -> Result<(), AllocError>
    ensures { OnOk result (out.new.items ≡ out.old.items ++ file_header table count names) }
{
    out.extend_from_slice(&[0x7f, 0x45, 0x4c, 0x46, 1, 1, 1, 0, 0, 0, 0, 0, 0, 0, 0, 0])?;
    put_half(out, RELOCATABLE)?;
    put_half(out, MSP430)?;
    put_word(out, 1)?;
    put_word(out, 0)?;
    put_word(out, 0)?;
    put_word(out, table)?;
    put_word(out, 0)?;
    put_half(out, FILE_HEADER_SIZE)?;
    put_half(out, 0)?;
    put_half(out, 0)?;
    put_half(out, SECTION_HEADER_SIZE)?;
    put_half(out, count)?;
    put_half(out, names)?;
    Ok(())
}

// The sections of a unit's file after section 0.
#[tactic(auto, unfolding(crate::specs::Object::file_sections))]
fn file_sections(alloc: Global, unit: &AsmUnit) -> Result<Sections, AllocError>
    ensures { IfOk result (AreSections (file_sections (unit_of unit.now))) }
{
    let tables = tables_of(alloc, &unit.relocations, unit.sections.len())?;
    let relocated = relocated_sections(alloc, &tables)?;
    let names = name_sections(alloc, unit, &relocated)?;
    let strings = name_table(alloc, &unit.symbols)?;
    let symbols = symbol_table_bytes(alloc, &unit.symbols, &strings)?;
    let mut sections = parts_of(alloc, unit, &names)?;
    add_tables(&mut sections, unit, &names, &strings, &symbols)?;
    add_relocations(&mut sections, unit, &names, &relocated, &tables)?;
    Ok(sections)
}

// The file of these sections, where the name table has this index.
#[tactic(auto, unfolding(crate::specs::Object::file_bytes))]
fn file_bytes(alloc: Global, sections: &Sections, names: usize) -> Result<Vec<u8>, AllocError>
    ensures { IfOk result (λ v. (list : List FileSection) → AreSections list sections.now →
        v.items ≡ file_bytes list names) }
{
    let mut out = Vec::new(alloc);
    let table = FILE_HEADER_SIZE + sections.contents.len();
    put_header(&mut out, table, sections.heads.len() + 1, names)?;
    sections.put(&mut out)?;
    Ok(out)
}

/// The bytes of the unit's object file.
///
/// It has section 0, the unit's sections, the tables of symbols, of their names and of the sections' names, and then
/// the relocations of each section that has some (TIS ELF 1.2). `elf_objects::parse` refuses it for want of memory
/// alone, and gives the unit's sections, symbols and relocations. Fails only where memory runs out.
pub fn write_object(alloc: Global, unit: &AsmUnit) -> Result<Vec<u8>, AllocError>
    ensures bytes { IfOk result (λ v. v.items ≡ object_of (unit_of unit.now)) }
    ensures sound { IfOk result (λ v. elf_fault_of v.items ≡ None) }
    ensures object { IfOk result (λ v. (object : ObjectValue) → object.file ≡ v.items → IsObject object →
        IsObjectOf (unit_of unit.now) object) }
{
    let sections = file_sections(alloc, unit)?;
    let bytes = file_bytes(alloc, &sections, unit.sections.len() + 3)?;
    Ok(bytes)
}
