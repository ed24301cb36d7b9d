//! Why objects do not link.

ghost use Rattle.std.specs.Prelude.{◌≡◌};
ghost use Rattle.link_symbols.specs.declared.fault.LinkFault.TheVariants.{NoMemory};

use reloc_apply::RelocFault;
use std::alloc::{AllocError, AllocFailed};

/// A region of a layout. A module's number is its place in the layout, from 0.
#[derive(Clone, Copy, Debug, PartialEq, Eq)]
pub enum Region {
    /// The code outside all modules.
    Text,
    /// The data outside all modules.
    Data,
    ModuleText(u32),
    ModuleData(u32),
}

/// The first refusal, in this order. Within one kind it is the first in order of object (or vector, module,
/// region) and then of the section, symbol or entry.
#[derive(Clone, Copy, Debug, PartialEq, Eq)]
pub enum LinkFault {
    /// A loaded section's name starts with `.sm.` and names no part of a module of the layout.
    NoPlace {
        object: u64,
        section: u64,
    },
    /// A name has two strong definitions: the first whose name has an earlier one, and the earliest of that name.
    Duplicate {
        first_object: u64,
        first_symbol: u64,
        object: u64,
        symbol: u64,
    },
    /// A relocation's symbol does not resolve: the lowest such symbol of its object.
    Undefined {
        object: u64,
        symbol: u64,
    },
    /// The name of a vector does not resolve.
    NoVector {
        vector: u64,
    },
    /// The name of an entry does not resolve.
    NoEntry {
        module: u64,
        entry: u64,
    },
    /// The name of an entry resolves, but not to an even address in the module's own code.
    EntryElsewhere {
        module: u64,
        entry: u64,
    },
    /// A region's contents need more bytes than it has.
    Region {
        region: Region,
        need: u64,
        room: u64,
    },
    /// The relocation at this place of the object's list is refused.
    Reloc {
        object: u64,
        table: u64,
        entry: u64,
        fault: RelocFault,
    },
    NoMemory,
}

impl From<AllocError> for LinkFault {
    ghost from_gives = { λ _ e. e ≡ NoMemory };

    fn from(_: AllocError) -> Self {
        LinkFault::NoMemory
    }
}

impl<T: Drop> From<AllocFailed<T>> for LinkFault {
    ghost from_gives = { λ _ e. e ≡ NoMemory };

    fn from(_: AllocFailed<T>) -> Self {
        LinkFault::NoMemory
    }
}
