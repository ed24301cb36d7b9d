//! Worked objects.

ghost use Rattle.std.specs.Prelude.{◌≡◌, IfOk};
ghost use Rattle.asm_text.specs.Views.{section_value, symbol_value};
ghost use Rattle.object_tests.specs.internal.Rows.{text_value, here_value, main_value};

use asm_text::{AsmSection, AsmSymbol, AsmUnit, SectionKind};
use elf_objects::{Binding, Home, Object, parse};
use obj_write::write_object;
use std::alloc::{AllocError, Global};
use std::test::Fail;

mod whole_file;

/// `mov #0x1234, r5`, `mov #0, r3` and `jmp here`, where `here` is the jump itself.
const TEXT: [u8; 8] = [0x35, 0x40, 0x34, 0x12, 0x03, 0x43, 0xff, 0x3f];

fn section(alloc: Global) -> Result<AsmSection, AllocError>
    ensures { IfOk result (λ s. section_value s ≡ text_value) }
{
    Ok(AsmSection {
        name: String::from_str(alloc, ".text")?,
        kind: SectionKind::Code,
        size: 8,
        bytes: Vec::from_slice(alloc, &TEXT)?,
    })
}

/// A place of the text, 6 bytes from its start.
fn here(alloc: Global) -> Result<AsmSymbol, AllocError>
    ensures { IfOk result (λ s. symbol_value s ≡ here_value) }
{
    Ok(AsmSymbol {
        name: String::from_str(alloc, "here")?,
        global: false,
        home: Some(0),
        value: 6,
    })
}

/// The start of the text, seen by other objects.
fn main_symbol(alloc: Global) -> Result<AsmSymbol, AllocError>
    ensures { IfOk result (λ s. symbol_value s ≡ main_value) }
{
    Ok(AsmSymbol {
        name: String::from_str(alloc, "main")?,
        global: true,
        home: Some(0),
        value: 0,
    })
}

#[tactic(auto, unfolding(asm_line::specs::Identifiers::is_name, asm_line::specs::Identifiers::is_name_byte))]
fn row(alloc: Global) -> Result<AsmUnit, AllocError> {
    let mut sections = Vec::new(alloc);
    sections.push(section(alloc)?)?;
    let mut symbols = Vec::new(alloc);
    symbols.push(here(alloc)?)?;
    symbols.push(main_symbol(alloc)?)?;
    Ok(AsmUnit {
        sections,
        symbols,
        relocations: Vec::new(alloc),
    })
}

fn object_of(alloc: Global, bytes: Vec<u8>) -> Result<Object, Fail> {
    match parse(alloc, bytes) {
        Ok(object) => Ok(object),
        Err(_) => Err("no object".into()),
    }
}

// Its file has 356 bytes: a header of 52, the text, 48 bytes of symbols, their names in 11 and those of the sections in
// 33, each up to a multiple of 4, and five headers of 40.
#[test]
fn worked_row(rt: HostRuntime) -> Result<(), Fail> {
    let bytes = write_object(rt.alloc(), &row(rt.alloc())?)?;
    assert_eq!(rt; bytes.len(), 356);
    let object = object_of(rt.alloc(), bytes)?;
    assert_eq!(rt; object.sections().len(), 5);
    assert_eq!(rt; object.part(object.section(1).bytes), TEXT.as_slice());
    assert_eq!(rt; object.symbols().len(), 3);
    let rows = [("here", 6, Binding::Local), ("main", 0, Binding::Global)];
    for (k, (name, value, binding)) in rows.into_iter().enumerate() {
        let symbol = object.symbol(k as u32 + 1);
        assert_eq!(rt; object.part(symbol.name), name.as_bytes());
        assert_eq!(rt; (symbol.value, symbol.binding), (value, binding), "{name}");
        assert_eq!(rt; symbol.home, Home::In(1), "{name}");
    }
    Ok(())
}
