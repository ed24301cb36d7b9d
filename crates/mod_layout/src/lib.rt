//! Protected modules: their sections, the table that holds them, and what an address is to them.
#![tactic(auto)]

mod table;

ghost use Rattle.std.specs.Prelude.{◌≡◌, ℕ, ◌+◌, ◌%◌, ◌≤◌};
ghost use Rattle.mod_layout.specs.Table.{holds, is_entry, size_of, share_byte, meets, is_empty, is_odd, is_reserved, Table, place_id, place_of};
ghost use Rattle.mod_layout.specs.Tables.{IsTable};

pub use table::ModuleTable;

/// The first address that is not a device's.
pub const DEVICES_END: u16 = 0x0200;

/// The address of the first of the sixteen vectors, which no section reaches: the largest end of one.
pub const FIRST_VECTOR: u16 = 0xffe0;

/// The address of the last vector, where the machine starts.
pub const RESET_VECTOR: u16 = 0xfffe;

// What the rules say of them: a changed number is refused here.
const _: () = prove!(DEVICES_END == 0x0200 && FIRST_VECTOR == 0xffe0 && RESET_VECTOR == 0xfffe);

/// The addresses from `start` on, below `end`.
#[derive(Clone, Copy, Debug, Default, PartialEq, Eq)]
pub struct Section {
    pub start: u16,
    pub end: u16,
}

impl Section {
    /// Whether it has this address.
    pub fn holds(self, addr: usize) -> bool
        ensures exact { result ≡ holds self addr }
    {
        usize::from(self.start) <= addr && addr < usize::from(self.end)
    }

    /// Whether it has a byte in common with another.
    pub fn shares_byte(self, other: Section) -> bool
        ensures exact { result ≡ share_byte self other }
    {
        self.start.max(other.start) < self.end.min(other.end)
    }

    /// How many bytes it has.
    pub fn len(self) -> u16
        requires order { self.start ≤ self.end }
        ensures size { result ≡ size_of self }
    {
        self.end - self.start
    }

    /// Whether its start is not below its end.
    pub fn is_empty(self) -> bool
        ensures exact { result ≡ is_empty self }
    {
        self.start >= self.end
    }

    fn is_odd(self) -> bool
        ensures { result ≡ is_odd self }
    {
        self.start % 2 != 0 || self.end % 2 != 0
    }

    fn is_reserved(self) -> bool
        ensures { result ≡ is_reserved self }
    {
        self.start < DEVICES_END || self.end > FIRST_VECTOR
    }
}

/// A protected module.
#[derive(Clone, Copy, Debug, Default, PartialEq, Eq)]
pub struct Module {
    /// Its number, from 1 upwards, never given twice.
    pub id: u16,
    /// The number of its vendor.
    pub vendor: u16,
    /// Its code; the first word is its entry.
    pub text: Section,
    /// Its private data.
    pub ram: Section,
}

impl Module {
    // Whether the address is in the first word of the text.
    fn has_entry(&self, addr: u16) -> bool
        ensures { result ≡ is_entry self.now.text addr }
    {
        addr >= self.text.start && addr - self.text.start < 2
    }

    fn meets(&self, text: Section, ram: Section) -> bool
        ensures { result ≡ meets text ram self.now }
    {
        text.shares_byte(self.text)
            || text.shares_byte(self.ram)
            || ram.shares_byte(self.text)
            || ram.shares_byte(self.ram)
    }
}

/// What an address is to the modules of a table, with the module's id.
#[derive(Clone, Copy, Debug, PartialEq, Eq)]
pub enum Place {
    /// In no section of a module.
    Open,
    /// In the first word of a module's text.
    Entry(u16),
    /// In a module's text, past its first word.
    Text(u16),
    /// In a module's data.
    Data(u16),
}

impl Place {
    /// The id of the module that it is of, else 0.
    pub fn id(self) -> u16
        ensures { result ≡ place_id self }
    {
        match self {
            Place::Open => 0,
            Place::Entry(id) | Place::Text(id) | Place::Data(id) => id,
        }
    }
}

/// Why a table refuses a module.
#[derive(Clone, Copy, Debug, PartialEq, Eq)]
pub enum TableFault {
    /// A section's start is not below its end.
    Empty,
    /// A start or an end is odd.
    Odd,
    /// A section meets one of a held module, and `with` is the lowest such id. Where none is met and
    /// the two sections meet each other, `with` is 0.
    Overlap { with: u16 },
    /// A start is below [`DEVICES_END`], or an end above [`FIRST_VECTOR`].
    Reserved,
    /// As many modules are held as there is room for.
    Full,
    /// All 65,535 ids were given.
    Spent,
}

/// Both bytes of a word at an even address are in the same place: sections have even ends.
pub fn words_lie_in_one_place()
    ensures place { (t : Table) (a : ℕ) → IsTable t → a % 2 ≡ 0 → place_of t (a + 1) ≡ place_of t a }
{}
