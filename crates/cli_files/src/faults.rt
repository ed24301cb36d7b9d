// Faults of layouts, objects, programs and linking, put to a sink.
ghost use Rattle.std.specs.Prelude.{◌++◌, [], codes};
ghost use Rattle.std.specs.Fmt.{decimal, signed_decimal};
ghost use Rattle.sm_io.specs.Sink.{Puts};
ghost use Rattle.cli_files.specs.Faults.{with_numbers, with_spot, module_number, layout_fault_text, object_fault_text, source_fault_text};
ghost use Rattle.cli_files.specs.LinkFaults.{link_fault_text, region_text, reloc_fault_text};

use crate::lines::put_field;
use asm_text::AsmFault;
use elf_objects::ElfFault;
use itoa::Buffer;
use layout_file::{LayoutFault, Spot};
use linker::{LinkFault, Region};
use reloc_apply::RelocFault;
use sm_io::{Failed, Sink, put_all};

// Puts numbers, each after a space.
fn put_list<S: Sink>(sink: &mut S, numbers: &[u64]) -> Result<(), Failed>
    ensures { Puts S.taken S.faults S.sure sink.old sink.new (with_numbers [] numbers.now) result }
{
    for number in numbers {
        match put_field(sink, b" ", *number) {
            Ok(()) => {}
            Err(Failed) => return Err(Failed),
        }
    }
    Ok(())
}

// Puts a name, and numbers after it.
fn put_numbers<S: Sink>(sink: &mut S, name: &[u8], numbers: &[u64]) -> Result<(), Failed>
    ensures { Puts S.taken S.faults S.sure sink.old sink.new (with_numbers name.now numbers.now) result }
{
    match put_all(sink, name) {
        Ok(()) => put_list(sink, numbers),
        Err(Failed) => Err(Failed),
    }
}

// Puts a name and a number with its sign.
fn put_signed<S: Sink>(sink: &mut S, name: &[u8], number: i64) -> Result<(), Failed>
    ensures { Puts S.taken S.faults S.sure sink.old sink.new (name.now ++ signed_decimal number) result }
{
    match put_all(sink, name) {
        Ok(()) => {}
        Err(Failed) => return Err(Failed),
    }
    let mut digits = Buffer::new();
    let text = digits.format(number);
    put_all(sink, text.as_bytes())
}

/// Puts the fault of an object.
pub fn put_object_fault<S: Sink>(sink: &mut S, fault: ElfFault) -> Result<(), Failed>
    ensures { Puts S.taken S.faults S.sure sink.old sink.new (object_fault_text fault) result }
{
    match fault {
        ElfFault::Short { at } => put_field(sink, b"Short ", at),
        ElfFault::Magic => put_all(sink, b"Magic"),
        ElfFault::Class => put_all(sink, b"Class"),
        ElfFault::Order => put_all(sink, b"Order"),
        ElfFault::Version => put_all(sink, b"Version"),
        ElfFault::Machine { n } => put_field(sink, b"Machine ", n),
        ElfFault::Kind { n } => put_field(sink, b"Kind ", n),
        ElfFault::Section { index } => put_field(sink, b"Section ", index),
        ElfFault::Name { index } => put_field(sink, b"Name ", index),
        ElfFault::Link { index } => put_field(sink, b"Link ", index),
        ElfFault::Symbol { index } => put_field(sink, b"Symbol ", index),
        ElfFault::Relocation { section, entry } => {
            put_numbers(sink, b"Relocation", &[section, entry])
        }
        ElfFault::Compressed { index } => put_field(sink, b"Compressed ", index),
        ElfFault::RelSection { index } => put_field(sink, b"RelSection ", index),
        ElfFault::HeaderSize { n } => put_field(sink, b"HeaderSize ", n),
        ElfFault::NoMemory => put_all(sink, b"NoMemory"),
    }
}

// Puts a jump that is too far.
fn put_far<S: Sink>(sink: &mut S, line: u64, value: i64) -> Result<(), Failed>
    ensures { Puts S.taken S.faults S.sure sink.old sink.new ((codes "Far " ++ decimal line)
        ++ (codes " " ++ signed_decimal value)) result }
{
    match put_field(sink, b"Far ", line) {
        Ok(()) => put_signed(sink, b" ", value),
        Err(Failed) => Err(Failed),
    }
}

/// Puts the fault of a program.
pub fn put_source_fault<S: Sink>(sink: &mut S, fault: AsmFault) -> Result<(), Failed>
    ensures { Puts S.taken S.faults S.sure sink.old sink.new (source_fault_text fault) result }
{
    match fault {
        AsmFault::Line { n } => put_field(sink, b"Line ", n),
        AsmFault::Place { n } => put_field(sink, b"Place ", n),
        AsmFault::Twice { n } => put_field(sink, b"Twice ", n),
        AsmFault::TooMany { n } => put_field(sink, b"TooMany ", n),
        AsmFault::Large { n } => put_field(sink, b"Large ", n),
        AsmFault::NoLabel { n } => put_field(sink, b"NoLabel ", n),
        AsmFault::Far { n, value } => put_far(sink, n, value),
        AsmFault::NoMemory => put_all(sink, b"NoMemory"),
    }
}

// Puts a module's number, or `-`.
fn put_module<S: Sink>(sink: &mut S, name: &[u8], module: Option<u32>) -> Result<(), Failed>
    ensures { Puts S.taken S.faults S.sure sink.old sink.new (name.now ++ module_number «module») result }
{
    match module {
        Some(number) => put_field(sink, name, u64::from(number)),
        None => put_both(sink, name, b"-"),
    }
}

/// Puts two texts.
pub fn put_both<S: Sink>(sink: &mut S, first: &[u8], second: &[u8]) -> Result<(), Failed>
    ensures { Puts S.taken S.faults S.sure sink.old sink.new (first.now ++ second.now) result }
{
    match put_all(sink, first) {
        Ok(()) => put_all(sink, second),
        Err(Failed) => Err(Failed),
    }
}

// Puts a name, and a spot after it.
fn put_spot<S: Sink>(sink: &mut S, name: &[u8], spot: Spot) -> Result<(), Failed>
    ensures { Puts S.taken S.faults S.sure sink.old sink.new (with_spot name.now spot) result }
{
    match put_all(sink, name) {
        Ok(()) => {}
        Err(Failed) => return Err(Failed),
    }
    match put_module(sink, b" ", spot.module) {
        Ok(()) => {}
        Err(Failed) => return Err(Failed),
    }
    put_both(sink, b" ", spot.key.name().as_bytes())
}

// Puts a value that is out of its range.
fn put_value<S: Sink>(sink: &mut S, spot: Spot, value: i64) -> Result<(), Failed>
    ensures { Puts S.taken S.faults S.sure sink.old sink.new (with_spot (codes "OutOfRange") spot
        ++ (codes " " ++ signed_decimal value)) result }
{
    match put_spot(sink, b"OutOfRange", spot) {
        Ok(()) => put_signed(sink, b" ", value),
        Err(Failed) => Err(Failed),
    }
}

/// Puts the fault of a layout.
pub fn put_layout_fault<S: Sink>(sink: &mut S, fault: LayoutFault) -> Result<(), Failed>
    ensures { Puts S.taken S.faults S.sure sink.old sink.new (layout_fault_text fault) result }
{
    match fault {
        LayoutFault::Utf8OrToml => put_all(sink, b"Utf8OrToml"),
        LayoutFault::MissingKey { spot } => put_spot(sink, b"MissingKey", spot),
        LayoutFault::WrongKind { spot } => put_spot(sink, b"WrongKind", spot),
        LayoutFault::OutOfRange { spot, value } => put_value(sink, spot, value),
        LayoutFault::UnknownKey { module } => put_module(sink, b"UnknownKey ", module),
        LayoutFault::TooMany { spot } => put_spot(sink, b"TooMany", spot),
        LayoutFault::Overlap { first, second } => put_numbers(sink, b"Overlap", &[first, second]),
        LayoutFault::SameName { first, second } => put_numbers(sink, b"SameName", &[first, second]),
        LayoutFault::NoMemory => put_all(sink, b"NoMemory"),
        LayoutFault::SameBoot { first, second } => put_numbers(sink, b"SameBoot", &[first, second]),
    }
}

fn put_reloc_fault<S: Sink>(sink: &mut S, fault: RelocFault) -> Result<(), Failed>
    ensures { Puts S.taken S.faults S.sure sink.old sink.new (reloc_fault_text fault) result }
{
    match fault {
        RelocFault::Kind { n } => put_field(sink, b"Kind ", n),
        RelocFault::Outside => put_all(sink, b"Outside"),
        RelocFault::Odd { value } => put_signed(sink, b"Odd ", value),
        RelocFault::Range { value } => put_signed(sink, b"Range ", value),
    }
}

fn put_region<S: Sink>(sink: &mut S, region: Region) -> Result<(), Failed>
    ensures { Puts S.taken S.faults S.sure sink.old sink.new (region_text region) result }
{
    match region {
        Region::Text => put_all(sink, b"Text"),
        Region::Data => put_all(sink, b"Data"),
        Region::ModuleText(number) => put_field(sink, b"ModuleText ", u64::from(number)),
        Region::ModuleData(number) => put_field(sink, b"ModuleData ", u64::from(number)),
    }
}

// Puts a relocation that is refused.
fn put_refused_field<S: Sink>(
    sink: &mut S,
    numbers: &[u64],
    fault: RelocFault,
) -> Result<(), Failed>
    ensures { Puts S.taken S.faults S.sure sink.old sink.new (with_numbers (codes "Reloc") numbers.now
        ++ (codes " " ++ reloc_fault_text fault)) result }
{
    match put_numbers(sink, b"Reloc", numbers) {
        Ok(()) => {}
        Err(Failed) => return Err(Failed),
    }
    match put_all(sink, b" ") {
        Ok(()) => put_reloc_fault(sink, fault),
        Err(Failed) => Err(Failed),
    }
}

// Puts a region that has too little room.
fn put_full_region<S: Sink>(sink: &mut S, region: Region, numbers: &[u64]) -> Result<(), Failed>
    ensures { Puts S.taken S.faults S.sure sink.old sink.new (codes "Region "
        ++ with_numbers (region_text region) numbers.now) result }
{
    match put_all(sink, b"Region ") {
        Ok(()) => {}
        Err(Failed) => return Err(Failed),
    }
    match put_region(sink, region) {
        Ok(()) => put_list(sink, numbers),
        Err(Failed) => Err(Failed),
    }
}

/// Puts the fault of linking.
pub fn put_link_fault<S: Sink>(sink: &mut S, fault: LinkFault) -> Result<(), Failed>
    ensures { Puts S.taken S.faults S.sure sink.old sink.new (link_fault_text fault) result }
{
    match fault {
        LinkFault::NoPlace { object, section } => put_numbers(sink, b"NoPlace", &[object, section]),
        LinkFault::Duplicate {
            first_object,
            first_symbol,
            object,
            symbol,
        } => put_numbers(
            sink,
            b"Duplicate",
            &[first_object, first_symbol, object, symbol],
        ),
        LinkFault::Undefined { object, symbol } => {
            put_numbers(sink, b"Undefined", &[object, symbol])
        }
        LinkFault::NoVector { vector } => put_field(sink, b"NoVector ", vector),
        LinkFault::NoEntry { module, entry } => put_numbers(sink, b"NoEntry", &[module, entry]),
        LinkFault::EntryElsewhere { module, entry } => {
            put_numbers(sink, b"EntryElsewhere", &[module, entry])
        }
        LinkFault::Region { region, need, room } => put_full_region(sink, region, &[need, room]),
        LinkFault::Reloc {
            object,
            table,
            entry,
            fault,
        } => put_refused_field(sink, &[object, table, entry], fault),
        LinkFault::NoMemory => put_all(sink, b"NoMemory"),
    }
}
