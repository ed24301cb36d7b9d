//! Why a layout is refused, and where.
use std::alloc::{AllocError, AllocFailed};

/// A key of a layout's tables.
#[derive(Clone, Copy, PartialEq, Eq, Debug)]
pub enum Key {
    Version,
    Key,
    HandlerSp,
    Text,
    Data,
    Vectors,
    Module,
    Name,
    Vendor,
    Stack,
    Entries,
    Boot,
}

impl Key {
    ghost use Rattle.std.specs.Prelude.{◌≡◌};
    ghost use Rattle.layout_file.specs.Keys.{key_name};

    /// The key as it stands in the file.
    pub fn name(self) -> &'static str
        ensures name { result.now ≡ key_name self }
    {
        match self {
            Key::Version => "version",
            Key::Key => "key",
            Key::HandlerSp => "handler_sp",
            Key::Text => "text",
            Key::Data => "data",
            Key::Vectors => "vectors",
            Key::Module => "module",
            Key::Name => "name",
            Key::Vendor => "vendor",
            Key::Stack => "stack",
            Key::Entries => "entries",
            Key::Boot => "boot",
        }
    }
}

/// A key of the top table, or of the module with a number. A fault in one of `v0` to `v15` has the key `Vectors`.
#[derive(Clone, Copy, PartialEq, Eq, Debug)]
pub struct Spot {
    /// The module's number in the file, from 0; none at the top.
    pub module: Option<u32>,
    pub key: Key,
}

/// Why a layout is refused: the first that applies in the order of the format's rules.
#[derive(Clone, Copy, PartialEq, Eq, Debug)]
pub enum LayoutFault {
    /// The bytes are no UTF-8, or the text is no TOML document.
    Utf8OrToml,
    /// A key that is not optional is absent.
    MissingKey { spot: Spot },
    /// The value's type is another, or the form of a key, a name or an array is.
    WrongKind { spot: Spot },
    /// An integer is outside its bounds or odd, and `value` is the first such; or the second of a pair is below the
    /// first, and `value` is the second; or there are no entries, and `value` is 0.
    OutOfRange { spot: Spot, value: i64 },
    /// A table has a key that is not listed. No module stands for the top table and for the table of vectors.
    UnknownKey { module: Option<u32> },
    /// There are more modules or more entries than may be.
    TooMany { spot: Spot },
    /// Two regions share a byte. They are numbered from 0: text, data, module 0's text, module 0's data, and so on.
    Overlap { first: u64, second: u64 },
    /// Two modules have one name.
    SameName { first: u64, second: u64 },
    /// An allocation failed.
    NoMemory,
    /// Two modules have one boot.
    SameBoot { first: u64, second: u64 },
}

impl From<AllocError> for LayoutFault {
    ghost use Rattle.layout_file.specs.declared.fault.LayoutFault.TheVariants.{NoMemory};
    ghost use Rattle.std.specs.Prelude.{◌≡◌};

    ghost from_gives = { λ e r. r ≡ NoMemory };

    fn from(_error: AllocError) -> LayoutFault {
        LayoutFault::NoMemory
    }
}

impl<T: Drop> From<AllocFailed<T>> for LayoutFault {
    ghost use Rattle.std.specs.Prelude.{◌≡◌};
    ghost use Rattle.layout_file.specs.declared.fault.LayoutFault.TheVariants.{NoMemory};

    ghost from_gives = { λ e r. r ≡ NoMemory };

    fn from(_error: AllocFailed<T>) -> LayoutFault {
        LayoutFault::NoMemory
    }
}
