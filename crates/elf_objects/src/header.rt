//! The header of an object file.

ghost use Rattle.std.specs.Prelude.{◌≡◌, length, ◌<◌, ◌^◌};
ghost use Rattle.elf_objects.specs.Passes.{FaultIs};
ghost use Rattle.elf_objects.specs.Header.{header_fault, table_fault, table_offset, section_count, name_table};

use crate::bytes::{byte_at, half_at, long_at};
use crate::fault::ElfFault;

/// `7f 45 4c 46`, read as a number.
const MAGIC: u32 = 0x464c457f;
/// EM_MSP430.
const MSP430: u16 = 105;
/// ET_REL.
const RELOCATABLE: u16 = 1;

const HEADER_SIZE: usize = 52;

const SECTION_HEADER_SIZE: u16 = 40;

/// Where the table of section headers starts.
pub fn table_offset(file: &[u8]) -> u32
    ensures { result ≡ table_offset file.now }
{
    long_at(file, 32)
}

pub fn section_count(file: &[u8]) -> u16
    ensures { result ≡ section_count file.now }
{
    half_at(file, 48)
}

/// The index of the section with the sections' names.
pub fn name_table(file: &[u8]) -> u16
    ensures { result ≡ name_table file.now }
{
    half_at(file, 50)
}

#[tactic(auto, unfolding(crate::specs::Header::header_fault))]
pub fn check_header(file: &[u8]) -> Result<(), ElfFault>
    ensures { FaultIs result (header_fault file.now) }
{
    if file.len() < HEADER_SIZE {
        return Err(ElfFault::Short {
            at: file.len() as u64,
        });
    }
    if long_at(file, 0) != MAGIC {
        return Err(ElfFault::Magic);
    }
    if byte_at(file, 4) != 1 {
        return Err(ElfFault::Class);
    }
    if byte_at(file, 5) != 1 {
        return Err(ElfFault::Order);
    }
    if byte_at(file, 6) != 1 || long_at(file, 20) != 1 {
        return Err(ElfFault::Version);
    }
    let machine = half_at(file, 18);
    if machine != MSP430 {
        return Err(ElfFault::Machine {
            n: u64::from(machine),
        });
    }
    let kind = half_at(file, 16);
    if kind != RELOCATABLE {
        return Err(ElfFault::Kind { n: u64::from(kind) });
    }
    Ok(())
}

#[tactic(auto, unfolding(crate::specs::Header::table_fault))]
pub fn check_table(file: &[u8]) -> Result<(), ElfFault>
    ensures { FaultIs result (table_fault file.now) }
{
    let entry_size = half_at(file, 46);
    if entry_size != SECTION_HEADER_SIZE {
        return Err(ElfFault::HeaderSize {
            n: u64::from(entry_size),
        });
    }
    let end = u64::from(table_offset(file)) + 40 * u64::from(section_count(file));
    if (file.len() as u64) < end {
        return Err(ElfFault::Short {
            at: file.len() as u64,
        });
    }
    Ok(())
}
