//! The parts of an object that a source gives.
ghost use Rattle.std.specs.Prelude.{◌≡◌};
ghost use Rattle.asm_text.specs.declared.unit.AsmFault.TheVariants.{NoMemory};
ghost use Rattle.asm_text.specs.Parts.{IsUnit};
ghost use Rattle.asm_text.specs.Views.{section_values, symbol_values};

use asm_line::SectionKind;
use std::alloc::{AllocError, AllocFailed};

/// A section: `bytes` has its `size` bytes, and none where it is `Bss`.
#[derive(Debug, Drop)]
pub struct AsmSection {
    pub name: String,
    pub kind: SectionKind,
    pub size: u32,
    pub bytes: Vec<u8>,
}

/// A symbol: a place so many bytes from the start of the section `home`, or a name of another object.
#[derive(Debug, Drop)]
pub struct AsmSymbol {
    pub name: String,
    /// Whether other objects see it.
    pub global: bool,
    pub home: Option<u32>,
    pub value: u32,
}

/// The word at this offset of the section is to be the address of the symbol.
#[derive(Clone, Copy, Debug, PartialEq, Eq)]
pub struct AsmRelocation {
    pub section: u32,
    pub offset: u32,
    pub symbol: u32,
}

/// The parts of an object.
///
/// At most 256 sections, each of at most 65,534 bytes and no two of one name; at most 1,048,576 symbols, no two of one
/// name, each with a home that is a section, or global without one; at most as many relocations, each of a section and
/// a symbol that are there. Names have 1 to 64 letters, digits, `_` or `.`, and no digit first.
#[derive(Debug, Drop)]
pub struct AsmUnit {
    pub sections: Vec<AsmSection>,
    pub symbols: Vec<AsmSymbol>,
    pub relocations: Vec<AsmRelocation>,
    pub ghost sound: { IsUnit (record {
      sections = section_values sections;
      symbols = symbol_values symbols;
      relocations = relocations.items;
    }) },
}

/// Why a text is refused. Lines are counted from 1.
#[derive(Clone, Copy, Debug, PartialEq, Eq)]
pub enum AsmFault {
    /// Line `n` has none of the forms, or lacks its LF.
    Line { n: u64 },
    /// Line `n` stands before the first section, or in a section of a kind that does not take it.
    Place { n: u64 },
    /// The section or the label of line `n` was there.
    Twice { n: u64 },
    /// Line `n` is section 257 or label 4,097.
    TooMany { n: u64 },
    /// With line `n` its section has more than 65,534 bytes.
    Large { n: u64 },
    /// The name of the jump in line `n` is no label of its section.
    NoLabel { n: u64 },
    /// The jump in line `n` has this offset in words, which is not from -512 to 511.
    Far { n: u64, value: i64 },
    /// An allocation failed.
    NoMemory,
}

impl From<AllocError> for AsmFault {
    ghost from_gives = { λ _ e. e ≡ NoMemory };

    fn from(_: AllocError) -> Self {
        AsmFault::NoMemory
    }
}

impl<T: Drop> From<AllocFailed<T>> for AsmFault {
    ghost from_gives = { λ _ e. e ≡ NoMemory };

    fn from(_: AllocFailed<T>) -> Self {
        AsmFault::NoMemory
    }
}
