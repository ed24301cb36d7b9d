//! The bus: the three devices, and the schedule that moves them.

ghost use Rattle.std.specs.Prelude.{◌≡◌, ◌≤◌, ◌<◌, ◌+◌, ◌-◌, ◌^◌, ℕ, true, List, length, drop, min, All, IfOk};
ghost use Rattle.schedule_file.specs.declared.Entry.{Entry};
ghost use Rattle.schedule_file.specs.Entries.{CyclesNeverFall, HasLine, has_line};
ghost use Rattle.devices.specs.Devices.{silent, happens, ticked_devices, line_of, accepted, read_of, after_read, write_of};
ghost use Rattle.devices.specs.Time.{ticked_by, quiet_of};
ghost use Rattle.devices.specs.internal.Parts.{joined_parts};
ghost use Rattle.devices.specs.Bus.{BusState, marked_bus, gone_back};
ghost use Rattle.devices.specs.internal.Bus.{acted_before, past_count};

use crate::registers::{
    LINES_ENABLE, LINES_LEVELS, SERIAL_CONTROL, SERIAL_DATA, TIMER_CONTROL, TIMER_LIMIT_HIGH,
};
use crate::{Device, Lines, NoMemory, Serial, Timer};
use schedule_file::{Entry, Schedule, What};
use std::alloc::Global;
use std::marker::Model;

// What changes from cycle to cycle: the registers, the byte that was sent, and the ticks that were done.
#[derive(Clone, Copy, Debug)]
struct Present {
    lines: Lines,
    serial: Serial,
    timer: Timer,
    ticks: u64,
}

impl Present {
    #[tactic(auto, using(std::proofs::lemmas::Bool::Decides::nat_tests))]
    fn happen(&mut self, what: What)
        requires { has_line what ≡ true }
        ensures devices { (es : List Entry) → joined_parts self.new.lines self.new.serial self.new.timer es ≡
            happens what (joined_parts self.old.lines self.old.serial self.old.timer es) }
        ensures ticks { self.new.ticks ≡ self.old.ticks }
    {
        match what {
            What::Serial(byte) => self.serial.receive(byte),
            What::Up(line) => self.lines.raise(line),
            What::Down(line) => self.lines.lower(line),
        }
    }

    // Lets these entries act up to the first that is not before cycle `end`, and gives how many have acted.
    fn act_before(&mut self, pending: &[Entry], end: u64) -> usize
        requires { All HasLine pending.now }
        ensures devices { (es : List Entry) → joined_parts self.new.lines self.new.serial self.new.timer es ≡
            acted_before end pending.now (joined_parts self.old.lines self.old.serial self.old.timer es) }
        ensures count { result ≡ past_count end pending.now }
        ensures ticks { self.new.ticks ≡ self.old.ticks }
    {
        let mut acted = 0;
        for entry in pending {
            if entry.cycle >= end {
                break;
            }
            self.happen(entry.what);
            acted += 1;
        }
        acted
    }
}

// The schedule, and how many of its entries have acted.
#[derive(Debug, Drop)]
struct Agenda {
    entries: Vec<Entry>,
    acted: usize,
}

impl Agenda {
    // The entries that have not acted.
    fn pending(&self) -> &[Entry]
        requires { self.now.acted ≤ length self.now.entries.items }
        ensures entries { result.now ≡ drop self.now.acted self.now.entries.items }
        ensures count { length self.now.entries.items < 2 ^ 64 }
    {
        &self.entries[self.acted..]
    }

    // How many entries are before cycle `ticks`.
    fn past(&self, ticks: u64) -> usize
        requires { CyclesNeverFall self.now.entries.items }
        ensures { result ≡ past_count ticks self.now.entries.items }
    {
        self.entries.partition_point(|entry| entry.cycle < ticks)
    }
}

/// A saved moment of a bus, to which the bus can return.
#[derive(Clone, Copy, Debug)]
pub struct BusMark {
    present: Present,
}

impl Model for BusMark {
    ghost use Rattle.std.specs.Prelude.{◌≤◌, ◌^◌, []};
    ghost use Rattle.devices.specs.internal.Parts.{joined_parts, lines_part, serial_part, timer_part};
    ghost use Rattle.devices.specs.Bus.{MarkedBus};

    ghost Value = { MarkedBus };

    ghost view = { λ m. record {
      devices = joined_parts m.present.lines m.present.serial m.present.timer [];
      ticks = m.present.ticks;
    } };

    ghost invariant = { λ m. m.present.ticks ≤ 2 ^ 62 };

    ghost inverse = { λ m. record {
      present = record {
        lines = lines_part m.devices;
        serial = serial_part m.devices;
        timer = timer_part m.devices;
        ticks = m.ticks;
      };
    } };
}

#[tactic(auto, unfolding(crate::specs::Devices::read_of, crate::specs::Devices::after_read))]
impl BusMark {
    /// Reads the byte at an address, as the bus of that moment reads it.
    pub fn read(&mut self, addr: u16) -> u8
        ensures byte { result ≡ read_of self.old.devices addr }
        ensures mark { self.new ≡ record self.old { devices = after_read self.old.devices addr } }
    {
        match addr {
            LINES_ENABLE | LINES_LEVELS => self.present.lines.read(addr),
            SERIAL_CONTROL | SERIAL_DATA => self.present.serial.read(addr),
            TIMER_CONTROL..=TIMER_LIMIT_HIGH => self.present.timer.read(addr),
            _ => 0,
        }
    }
}

/// The three devices and the schedule that moves them, cycle by cycle from 0.
#[derive(Debug, Drop)]
pub struct Bus {
    present: Present,
    agenda: Agenda,
    moves: u64,
}

impl Model for Bus {
    ghost use Rattle.std.specs.Prelude.{◌≤◌, ◌^◌};
    ghost use Rattle.devices.specs.internal.Parts.{joined_parts};
    ghost use Rattle.devices.specs.Bus.{BusState};
    ghost use Rattle.devices.specs.internal.Bus.{IsDue};

    ghost Value = { BusState };

    ghost view = { λ b. record {
      devices = joined_parts b.present.lines b.present.serial b.present.timer b.agenda.entries.items;
      ticks = b.present.ticks;
      moves = b.moves;
    } };

    ghost invariant = { λ b. IsDue b.agenda.entries.items b.agenda.acted b.present.ticks × (b.present.ticks ≤ 2 ^ 62) };
}

impl Bus {
    /// The devices at cycle 0, driven by this schedule.
    pub fn new(alloc: Global, schedule: &Schedule) -> Result<Bus, NoMemory>
        ensures silent { IfOk result (λ bus.
            bus ≡ record { devices = silent schedule.now.entries.items; ticks = 0; moves = 0 }) }
    {
        let entries = Vec::from_slice(alloc, schedule.entries.as_slice())?;
        Ok(Bus {
            present: Present {
                lines: Lines::new(),
                serial: Serial::new(),
                timer: Timer::new(),
                ticks: 0,
            },
            agenda: Agenda { entries, acted: 0 },
            moves: 0,
        })
    }

    /// The last byte that was sent since the last tick.
    pub fn sent(&self) -> Option<u8>
        ensures sent { result ≡ self.now.devices.sent }
    {
        self.present.serial.sent()
    }

    /// How many calls of `tick` and `skip` there were, up to the greatest number of 64 bits.
    pub fn moves(&self) -> u64
        ensures moves { result ≡ self.now.moves }
    {
        self.moves
    }

    /// The present moment: the devices, the byte sent, and the number of ticks done.
    pub fn mark(&self) -> BusMark
        ensures mark { result ≡ marked_bus self.now }
    {
        BusMark {
            present: self.present,
        }
    }

    /// Goes back, or on, to a moment, and keeps the schedule: the entries from that moment's next cycle on are
    /// still to act.
    pub fn back(&mut self, mark: &BusMark)
        ensures bus { self.new ≡ gone_back mark.now self.old }

        // A bus of the same schedule is at the moment itself, whatever was done since.
        ensures moment { (then : BusState) → mark.now ≡ marked_bus then →
            self.old.devices.schedule ≡ then.devices.schedule →
            self.new ≡ record then { moves = self.old.moves } }
    {
        self.present = mark.present;
        self.agenda.acted = self.agenda.past(self.present.ticks);
    }

    // Lets `n` cycles pass.
    #[inline(always)]
    fn advance(&mut self, n: u64)
        requires { n ≤ 2 ^ 62 - self.old.ticks }
        ensures devices { self.new.devices ≡ ticked_by n self.old.ticks self.old.devices }
        ensures ticks { self.new.ticks ≡ self.old.ticks + n }
        ensures moves { self.new.moves ≡ min (self.old.moves + 1) (2 ^ 64 - 1) }
    {
        let end = self.present.ticks + n;
        self.present.serial.skip(n);
        self.present.timer.skip(n);
        let acted = self.present.act_before(self.agenda.pending(), end);
        self.agenda.acted += acted;
        self.present.ticks = end;
        self.moves = self.moves.saturating_add(1);
    }
}

#[tactic(auto, unfolding(crate::specs::Devices::line_of, crate::specs::Devices::accepted, crate::specs::Devices::read_of, crate::specs::Devices::after_read, crate::specs::Devices::write_of, crate::specs::Time::timer_quiet, crate::specs::Time::quiet_of))]
impl Device for Bus {
    ghost use Rattle.std.specs.Prelude.{◌-◌, ◌^◌, true};

    ghost state = { λ b. b.devices };

    ghost cycle = { λ b. b.ticks };

    ghost ticks_left = { λ b. 2 ^ 62 - b.ticks };

    ghost owns = { λ _. true };

    fn tick(&mut self)
        requires left { 1 ≤ 2 ^ 62 - self.old.ticks }
        ensures state { self.new.devices ≡ ticked_devices self.old.devices self.old.ticks }
        ensures ticks { self.new.ticks ≡ self.old.ticks + 1 }
        ensures moves { self.new.moves ≡ min (self.old.moves + 1) (2 ^ 64 - 1) }
    {
        self.advance(1);
    }

    fn line(&self) -> Option<u8> {
        let timer = self.present.timer.line();
        let serial = self.present.serial.line();
        let lines = self.present.lines.line();
        timer.or(serial.or(lines))
    }

    fn quiet(&self) -> u64 {
        let quiet = self.present.timer.quiet();
        match self.agenda.pending() {
            [] => quiet,
            [next, ..] => quiet.min(next.cycle - self.present.ticks),
        }
    }

    fn skip(&mut self, n: u64)
        requires left { n ≤ 2 ^ 62 - self.old.ticks }
        ensures state { self.new.devices ≡ ticked_by n self.old.ticks self.old.devices }
        ensures ticks { self.new.ticks ≡ self.old.ticks + n }
        ensures moves { self.new.moves ≡ min (self.old.moves + 1) (2 ^ 64 - 1) }
    {
        self.advance(n);
    }

    fn accept(&mut self, vector: u8)
        ensures bus { self.new ≡ record self.old { devices = accepted self.old.devices vector } }
    {
        self.present.timer.accept(vector);
    }

    fn read(&mut self, addr: u16) -> u8
        ensures byte { result ≡ read_of self.old.devices addr }
        ensures bus { self.new ≡ record self.old { devices = after_read self.old.devices addr } }
    {
        match addr {
            LINES_ENABLE | LINES_LEVELS => self.present.lines.read(addr),
            SERIAL_CONTROL | SERIAL_DATA => self.present.serial.read(addr),
            TIMER_CONTROL..=TIMER_LIMIT_HIGH => self.present.timer.read(addr),
            _ => 0,
        }
    }

    fn write(&mut self, addr: u16, byte: u8)
        ensures bus { self.new ≡ record self.old { devices = write_of self.old.devices addr byte } }
    {
        match addr {
            LINES_ENABLE | LINES_LEVELS => self.present.lines.write(addr, byte),
            SERIAL_CONTROL | SERIAL_DATA => self.present.serial.write(addr, byte),
            TIMER_CONTROL..=TIMER_LIMIT_HIGH => self.present.timer.write(addr, byte),
            _ => {}
        }
    }
}
