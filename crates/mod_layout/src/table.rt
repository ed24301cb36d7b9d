//! The table of modules.

ghost use Rattle.std.specs.Prelude.{◌≡◌, ◌+◌, ◌↔◌, ◌⊎◌, ◌≤◌, [], length, OnOk, OnErr, IfOk, IfErr, IfSome, OnSome, IsOk, IsTrue, IsSome, option_copied, position, find, ◌==◌};
ghost use Rattle.std.specs.Slice.Iter.{iter_rest};
ghost use Rattle.std.specs.Iterator.Adapters.{IterYieldsInOrder};
ghost use Rattle.mod_layout.specs.Table.{place_of, place_in, module_of, own_of, fault_of, lowest_met as lowest_met_in, with_module, without, empty_table};
ghost use Rattle.mod_layout.specs.Tables.{IsModule, IsTable};

use crate::{Module, Place, Section, TableFault};
use arrayvec::ArrayVec;
use std::alloc::AllocError;
use std::marker::Model;
use std::slice;

/// The most modules that any table has room for.
const MOST: usize = 32;

/// The modules that are protected now, and the number of ids given so far.
#[derive(Debug, Drop)]
pub struct ModuleTable {
    modules: ArrayVec<Module, MOST>,
    given: u16,
    room: u16,
}

impl Model for ModuleTable {
    ghost use Rattle.mod_layout.specs.Table.{Table};
    ghost use Rattle.mod_layout.specs.Tables.{IsTable};

    ghost Value = { Table };

    ghost view = { λ t. record { modules = t.modules.items; given = t.given; room = t.room } };

    ghost invariant = { λ t. IsTable record { modules = t.modules.items; given = t.given; room = t.room } };
}

impl Clone for ModuleTable {
    ghost is_clone = { λ table copy. copy ≡ table };

    ghost is_infallible = { λ _. Unit {0} };

    fn clone(&self) -> Result<Self, AllocError> {
        Ok(Self {
            modules: self.modules.clone()?,
            given: self.given,
            room: self.room,
        })
    }
}

impl ModuleTable {
    /// A table with no module, and room for 8.
    pub fn new() -> Self
        ensures empty { result ≡ empty_table 8 }
        ensures table { IsTable result }
    {
        Self::with_room(8)
    }

    /// A table with no module, and room for 8 or 32.
    pub fn with_room(room: u16) -> Self
        requires rooms { (room ≡ 8) ⊎ (room ≡ 32) }
        ensures empty { result ≡ empty_table room }
        ensures table { IsTable result }
    {
        Self {
            modules: ArrayVec::new(),
            given: 0,
            room,
        }
    }

    /// How many modules there may be: 8 or 32.
    pub fn room(&self) -> u16
        ensures room { result ≡ self.now.room }
        ensures table { IsTable self.now }
    {
        self.room
    }

    /// How many modules are held.
    pub fn len(&self) -> usize
        ensures len { result ≡ length self.now.modules }
        ensures room { result ≤ self.now.room }
    {
        self.modules.len()
    }

    /// Whether no module is held.
    pub fn is_empty(&self) -> bool
        ensures empty { IsTrue result ↔ (self.now.modules ≡ []) }
    {
        self.modules.is_empty()
    }

    /// The modules held, in the order in which they came.
    pub fn iter(&self) -> slice::Iter<'_, Module>
        ensures modules { iter_rest result ≡ self.now.modules }
        ensures runs { IterYieldsInOrder Module }
        ensures table { IsTable self.now }
    {
        self.modules.iter()
    }

    /// Takes a module in, and gives its id: the number of ids given before, plus 1.
    ///
    /// The first refusal of the order of [`TableFault`] that applies is answered.
    pub fn add(&mut self, vendor: u16, text: Section, ram: Section) -> Result<u16, TableFault>
        ensures accepted { IsOk result ↔ (fault_of self.old text ram ≡ None) }
        ensures refused { IfErr result (λ fault. fault_of self.old text ram ≡ Some fault) }
        ensures id { IfOk result (λ id. id ≡ self.old.given + 1) }

        // What the table holds then; a refusal changes nothing.
        ensures taken { OnOk result (self.new ≡ with_module self.old vendor text ram) }
        ensures unchanged { OnErr result (self.new ≡ self.old) }
        ensures table { IsTable self.new }
    {
        if let Some(fault) = self.fault(text, ram) {
            return Err(fault);
        }
        let id = self.given + 1;
        self.modules.push(Module {
            id,
            vendor,
            text,
            ram,
        });
        self.given = id;
        Ok(id)
    }

    /// Takes the module with this id out; `false` exactly where it is not held.
    pub fn remove(&mut self, id: u16) -> bool
        ensures held { IsTrue result ↔ IsSome (module_of id self.old) }
        ensures without { self.new ≡ without id self.old }
        ensures table { IsTable self.new }
    {
        match index_of(self.modules.as_slice(), id) {
            None => false,
            Some(index) => {
                self.modules.remove(index);
                true
            }
        }
    }

    /// What an address is to the modules held.
    pub fn at(&self, addr: u16) -> Place
        ensures place { result ≡ place_of self.now addr }
        ensures table { IsTable self.now }
    {
        place_among(self.modules.as_slice(), addr)
    }

    /// The module with this id; `None` exactly where it is not held.
    pub fn get(&self, id: u16) -> Option<&Module>
        ensures module_of { option_copied result ≡ module_of id self.now }
        ensures table { IsTable self.now }
    {
        module_with(self.modules.as_slice(), id)
    }

    /// The active module, where the table holds it.
    pub fn own(&self, active: Option<u16>) -> Option<Module>
        ensures own { result ≡ own_of active self.now }
        ensures kept { IfSome result (IsModule self.now.given) }
        ensures table { OnSome result (IsTable self.now) }
    {
        self.get(active?).copied()
    }

    // The first refusal that applies to a module with these sections.
    fn fault(&self, text: Section, ram: Section) -> Option<TableFault>
        ensures { result ≡ fault_of self.now text ram }
    {
        if text.is_empty() || ram.is_empty() {
            return Some(TableFault::Empty);
        }
        if text.is_odd() || ram.is_odd() {
            return Some(TableFault::Odd);
        }
        if let Some(with) = lowest_met(text, ram, self.modules.as_slice()) {
            return Some(TableFault::Overlap { with });
        }
        if text.shares_byte(ram) {
            return Some(TableFault::Overlap { with: 0 });
        }
        if text.is_reserved() || ram.is_reserved() {
            return Some(TableFault::Reserved);
        }
        if self.modules.len() >= usize::from(self.room) {
            return Some(TableFault::Full);
        }
        if self.given == u16::MAX {
            return Some(TableFault::Spent);
        }
        None
    }
}

// The module with this id.
fn module_with(modules: &[Module], id: u16) -> Option<&Module>
    ensures { option_copied result ≡ find (λ m. m.id == id) modules.now }
{
    modules.iter().find(|module| module.id == id)
}

// The place of the module with this id.
fn index_of(modules: &[Module], id: u16) -> Option<usize>
    ensures { result ≡ position (λ m. m.id == id) modules.now }
{
    modules.iter().position(|module| module.id == id)
}

// The lowest id of a module that one of two sections meets.
fn lowest_met(text: Section, ram: Section, modules: &[Module]) -> Option<u16>
    ensures { result ≡ lowest_met_in text ram modules.now }
{
    let mut lowest: Option<u16> = None;
    for module in modules {
        if module.meets(text, ram) {
            lowest = Some(match lowest {
                None => module.id,
                Some(id) => id.min(module.id),
            });
        }
    }
    lowest
}

// What an address is to these modules.
fn place_among(modules: &[Module], addr: u16) -> Place
    ensures { result ≡ place_in modules.now addr }
{
    for module in modules {
        if module.has_entry(addr) {
            return Place::Entry(module.id);
        }
        if module.text.holds(usize::from(addr)) {
            return Place::Text(module.id);
        }
        if module.ram.holds(usize::from(addr)) {
            return Place::Data(module.id);
        }
    }
    Place::Open
}
