use byteorder::{ByteOrder, LittleEndian};
use elf_objects::*;
use std::alloc::Global;
use std::process::Abort;
use std::str::from_utf8;
use std::test::Fail;

mod objects;

use objects::{debug, full};

fn fault_of(alloc: Global, bytes: &[u8]) -> Result<Option<ElfFault>, Fail> {
    match parse(alloc, Vec::from_slice(alloc, bytes)?) {
        Ok(_) => Ok(None),
        Err(fault) => Ok(Some(fault)),
    }
}

fn object_of(alloc: Global, bytes: &[u8]) -> Result<Object, Fail> {
    match parse(alloc, Vec::from_slice(alloc, bytes)?) {
        Ok(object) => Ok(object),
        Err(_) => Err("refused".into()),
    }
}

// Where the section headers, the symbols and the relocations of `.text` are in `full`.
const HEADERS: usize = 784;

const SYMBOLS: usize = 216;

const TEXT_TABLE: usize = 440;

// The bytes with these numbers of four bytes changed.
fn changed(
    rt: &impl Abort,
    alloc: Global,
    bytes: &[u8],
    changes: [(usize, u32); 2],
) -> Result<Vec<u8>, Fail> {
    let mut file = Vec::from_slice(alloc, bytes)?;
    for (at, number) in changes {
        assert!(rt; at < 1301 && at + 4 <= file.len());
        LittleEndian::write_u32(&mut file[at..], number);
    }
    Ok(file)
}

// The symbol table's header once more, as a section of its own at the end.
#[test]
fn second_symbol_table(rt: HostRuntime) -> Result<(), Fail> {
    let full = full();
    assert_eq!(rt; full.len(), HEADERS + 40 * 13);
    let mut file = Vec::from_slice(rt.alloc(), full)?;
    file.extend_from_slice(&full[HEADERS + 40 * 12..])?;
    assert!(rt; 48 < file.len());
    file[48] = 14;
    assert_eq!(rt;
        fault_of(rt.alloc(), &file)?,
        Some(ElfFault::Link { index: 13 })
    );
    Ok(())
}

// What `readelf -SW` says of `full`: name, type and flags in hexadecimal, size, alignment, offset and end of the bytes.
const SECTIONS: &str = " 0 0 0 0 0 0
.strtab 3 0 184 1 597 781
.MSP430.attributes 70000003 0 23 1 52 75
.text 1 6 100 4 76 176
.rela.text 4 40 144 4 440 584
.sm.m.text 1 6 6 2 176 182
.rela.sm.m.text 4 40 12 4 584 596
.data 1 3 2 2 182 184
.bss 8 3 2 2 0 0
.comment 1 30 29 1 184 213
.note.GNU-stack 1 0 0 1 213 213
.llvm_addrsig 6fff4c03 80000000 1 1 596 597
.symtab 2 0 224 4 216 440
";

// What `readelf -sW` says of its symbols: name, value, size, binding and section.
const SYMBOL_ROWS: &str = " 0 0 Local Undefined
full.c 0 0 Local Absolute
 0 0 Local In(3)
kept 72 28 Local In(3)
hidden.0 0 2 Local In(8)
 0 0 Local In(8)
half 0 28 Weak In(3)
inside 0 6 Global In(5)
counter 0 2 Global In(7)
main 28 44 Global In(3)
zeros 2 6 Global Common
maybe 0 0 Weak Undefined
other 0 0 Global Undefined
shared 2 2 Global Common
";

// What `readelf -rW` says of its relocations: table, entry, section, offset in hexadecimal, symbol, kind and addend.
const RELOCATIONS: &str = "\
4 0 3 1e 2 5 72
4 1 3 22 10 5 2
4 2 3 26 11 5 0
4 3 3 2e 8 5 0
4 4 3 32 12 5 0
4 5 3 36 11 5 0
4 6 3 40 7 5 0
4 7 3 44 6 5 0
4 8 3 4a 13 5 0
4 9 3 52 13 5 0
4 10 3 56 5 5 0
4 11 3 5e 5 5 0
6 0 5 2 8 5 0
";

#[test]
fn sections_of_an_object(rt: HostRuntime) -> Result<(), Fail> {
    let object = object_of(rt.alloc(), full())?;
    assert_eq!(rt; object.sections().len(), 13);
    for (i, row) in SECTIONS.lines().enumerate() {
        assert!(rt; i < object.sections().len() && i < 13);
        let section = object.section(i as u32);
        let name = from_utf8(object.part(section.name)).unwrap_or("?");
        let told = format!(in rt.alloc();
            "{name} {:x} {:x} {} {} {} {}",
            section.kind,
            section.flags,
            section.size,
            section.align,
            section.bytes.start,
            section.bytes.end
        )?;
        assert_eq!(rt; told.as_str(), row);
    }
    Ok(())
}

#[test]
fn symbols_of_an_object(rt: HostRuntime) -> Result<(), Fail> {
    let object = object_of(rt.alloc(), full())?;
    assert_eq!(rt; object.symbols().len(), 14);
    for (k, row) in SYMBOL_ROWS.lines().enumerate() {
        assert!(rt; k < object.symbols().len() && k < 14);
        let symbol = object.symbol(k as u32);
        let name = from_utf8(object.part(symbol.name)).unwrap_or("?");
        let told = format!(in rt.alloc();
            "{name} {} {} {:?} {:?}",
            symbol.value, symbol.size, symbol.binding, symbol.home
        )?;
        assert_eq!(rt; told.as_str(), row);
    }
    Ok(())
}

#[test]
fn relocations_of_an_object(rt: HostRuntime) -> Result<(), Fail> {
    let object = object_of(rt.alloc(), full())?;
    assert_eq!(rt; object.relocation_count(), 13);
    for (place, row) in RELOCATIONS.lines().enumerate() {
        assert!(rt; place < object.relocation_count());
        let it = object.relocation(place);
        let told = format!(in rt.alloc();
            "{} {} {} {:x} {} {} {}",
            it.table, it.entry, it.target, it.offset, it.symbol, it.kind, it.addend
        )?;
        assert_eq!(rt; told.as_str(), row);
    }
    Ok(())
}

// An addend is signed, and symbol 0 is nothing whatever its bytes are.
#[test]
fn signs_and_symbol_zero(rt: HostRuntime) -> Result<(), Fail> {
    let changes = [(TEXT_TABLE + 8, 0xffff_fffe), (SYMBOLS, 0xffff_ffff)];
    let file = changed(&rt, rt.alloc(), full(), changes)?;
    let object = object_of(rt.alloc(), &file)?;
    assert!(rt; 0 < object.relocation_count() && 0 < object.symbols().len());
    assert_eq!(rt; object.relocation(0).addend, -2);
    assert_eq!(rt; object.symbol(0).name, Span { start: 0, end: 0 });
    assert_eq!(rt; object.symbol(0).home, Home::Undefined);
    Ok(())
}

// Debug sections and their relocations are passed over: of the 16 relocations that `readelf -rW`
// shows one is of a loaded section.
#[test]
fn object_with_debug_sections(rt: HostRuntime) -> Result<(), Fail> {
    let object = object_of(rt.alloc(), debug())?;
    assert_eq!(rt; object.sections().len(), 21);
    assert_eq!(rt; object.symbols().len(), 11);
    let wanted = Relocation {
        table: 4,
        entry: 0,
        target: 3,
        offset: 0x2,
        symbol: 10,
        kind: 5,
        addend: 0,
    };
    assert_eq!(rt; object.relocation_count(), 1);
    assert_eq!(rt; object.relocation(0), wanted);
    Ok(())
}
