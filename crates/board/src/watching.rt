//! A look at the whole machine in the middle of a cycle.

ghost use Rattle.std.specs.Prelude.{◌≡◌};
ghost use Rattle.sm_words.specs.Words.{add16, word_at};
ghost use Rattle.irq_padding.specs.Turns.{turn_kind};
ghost use Rattle.written_machine.specs.Checks.{entered};
ghost use Rattle.written_machine.specs.Cycle.{byte_of, case_of, pc_of};
ghost use Rattle.written_machine.specs.State.{State};
ghost use Rattle.board.specs.Watched.{is_begin, is_held_first};
ghost use Rattle.board.specs.internal.Standing.{state_of};

use crate::machine::Machine;
use devices::Bus;
use irq_padding::Turn;
use mod_layout::Place;
use sm_words::Core;
use std::marker::Model;

/// All of a machine whose cycle is settled, with no module hidden.
#[derive(Drop)]
pub struct Settled<'a> {
    pub(crate) machine: &'a Machine,
}

impl<'a> Model for Settled<'a> {
    ghost use Rattle.written_machine.specs.State.{State};
    ghost use Rattle.board.specs.internal.Standing.{state_of};

    ghost Value = { State };

    ghost view = { λ s. state_of s.machine.now };
}

impl Settled<'_> {
    /// The number of this cycle.
    pub fn cycle(&self) -> u64
        ensures { result ≡ self.now.cycle }
    {
        self.machine.cycle
    }

    /// Whether an instruction begins, or is refused.
    pub fn begins(&self) -> bool
        ensures { result ≡ is_begin (turn_kind (case_of self.now)) }
    {
        matches!(self.machine.kind(self.machine.raised()), Turn::Begin)
    }

    /// The registers.
    pub fn core(&self) -> Core
        ensures { result ≡ self.now.core }
    {
        self.machine.core
    }

    /// The byte of memory at an address.
    pub fn byte(&self, addr: u16) -> u8
        ensures { result ≡ byte_of self.now addr }
    {
        self.machine.port.memory.byte(addr)
    }

    /// The word at PC and the two behind it, past 0xFFFF those at 0x0000.
    pub fn words(&self) -> (u16, u16, u16)
        ensures first { result.0 ≡ word_at (byte_of self.now) (pc_of self.now) }
        ensures second { result.1 ≡ word_at (byte_of self.now) (add16 (pc_of self.now) 2) }
        ensures third { result.2 ≡ word_at (byte_of self.now) (add16 (pc_of self.now) 4) }
    {
        self.machine.port.memory.three_words(self.machine.pc())
    }

    /// The devices.
    pub fn bus(&self) -> &Bus
        ensures { result.now.devices ≡ self.now.devices }
    {
        &self.machine.port.bus
    }

    /// The module that the instruction at PC is done for: the active one, and where none is, the one at whose entry PC
    /// is.
    pub fn entered(&self) -> Option<u16>
        ensures { result ≡ (entered self.now).active }
    {
        match (
            self.machine.active,
            self.machine.table.at(self.machine.pc()),
        ) {
            (Some(id), _) => Some(id),
            (None, Place::Entry(id)) => Some(id),
            _ => None,
        }
    }

    /// Whether the newest frame is a module's.
    pub fn is_module_newest(&self) -> bool
        ensures { result ≡ is_held_first self.now.frames }
    {
        self.machine.is_module_newest()
    }
}

/// What looks at each settled cycle of a board.
pub trait Watch {
    /// Which look at a settled state leads from one value to another.
    ghost looks: { Self → State → Self → Type 0 };

    /// Looks at a settled cycle.
    fn look(&mut self, settled: &Settled<'_>)
        ensures { looks self.old settled.now self.new };
}
