//! Why a file is not an object that this reader takes.

ghost use Rattle.std.specs.Prelude.{◌≡◌};
ghost use Rattle.elf_objects.specs.declared.fault.ElfFault.TheVariants.{NoMemory};

use std::alloc::{AllocError, AllocFailed};

/// Why a file is refused. The causes are tested in the order Short, Magic, Class, Order,
/// Version, Machine, Kind, HeaderSize, Short, Section, Link, Name, Compressed, RelSection, Symbol,
/// Relocation, each over all indexes, and the first that applies is given.
#[derive(Clone, Copy, Debug, PartialEq, Eq)]
pub enum ElfFault {
    /// The file ends at `at`, before its header or its table of section headers does.
    Short { at: u64 },
    /// The file does not start with the ELF magic number.
    Magic,
    /// The file is not a 32-bit ELF file.
    Class,
    /// The file is not little-endian.
    Order,
    /// One of the two version fields is not 1.
    Version,
    /// The file is for machine `n`, and not for the MSP430.
    Machine { n: u64 },
    /// The file is of type `n`, and not relocatable.
    Kind { n: u64 },
    /// The section's bytes end past the file, or the loaded section's alignment is neither 0 nor a
    /// power of two up to 32,768.
    Section { index: u64 },
    /// The section's name does not start or does not end in the name table.
    Name { index: u64 },
    /// The section, or the file's name table, is not what points to it or what it points to needs.
    Link { index: u64 },
    /// The symbol's name, binding, section or alignment is not one that a symbol has.
    Symbol { index: u64 },
    /// The relocation names a symbol that is not there.
    Relocation { section: u64, entry: u64 },
    /// The loaded section is compressed.
    Compressed { index: u64 },
    /// The section has relocations of a loaded section without addends.
    RelSection { index: u64 },
    /// A section header has `n` bytes, and not 40.
    HeaderSize { n: u64 },
    /// An allocation failed.
    NoMemory,
}

impl From<AllocError> for ElfFault {
    ghost from_gives = { λ _ e. e ≡ NoMemory };

    fn from(_error: AllocError) -> ElfFault {
        ElfFault::NoMemory
    }
}

impl<T: Drop> From<AllocFailed<T>> for ElfFault {
    ghost from_gives = { λ _ e. e ≡ NoMemory };

    fn from(_error: AllocFailed<T>) -> ElfFault {
        ElfFault::NoMemory
    }
}
