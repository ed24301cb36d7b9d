//! Four lines from outside, each with a level.

ghost use Rattle.std.specs.Prelude.{◌≡◌, ◌<◌, []};
ghost use Rattle.devices.specs.Devices.{silent, with_bit, line_raised};
ghost use Rattle.devices.specs.Parts.{lines_alone};

use crate::bits::{is_set, with_clear, with_set};
use crate::registers::{LINES_ENABLE, LINES_LEVELS, LINES_VECTOR};
use crate::{Device, MAX_TICKS};
use std::marker::Model;

/// Which lines may interrupt and which are up, in a bit each.
#[derive(Clone, Copy, Debug)]
pub struct Lines {
    enabled: u8,
    levels: u8,
}

impl Model for Lines {
    ghost use Rattle.std.specs.Prelude.{◌<◌};
    ghost use Rattle.devices.specs.Parts.{LinesPart};

    ghost Value = { LinesPart };

    ghost view = { λ l. record { enabled = l.enabled; levels = l.levels } };

    ghost invariant = { λ l. (l.enabled < 16) × (l.levels < 16) };

    ghost inverse = { λ d. record { enabled = d.enabled; levels = d.levels } };
}

impl Lines {
    /// All lines are down and disabled.
    pub fn new() -> Lines
        ensures silent { lines_alone result ≡ silent [] }
    {
        Lines {
            enabled: 0,
            levels: 0,
        }
    }

    /// Line `line` goes up.
    pub fn raise(&mut self, line: u8)
        requires { line < 4 }
        ensures { self.new ≡ record self.old { levels = with_bit self.old.levels line 1 } }
    {
        self.levels = with_set(self.levels, line);
    }

    /// Line `line` goes down.
    pub fn lower(&mut self, line: u8)
        requires { line < 4 }
        ensures { self.new ≡ record self.old { levels = with_bit self.old.levels line 0 } }
    {
        self.levels = with_clear(self.levels, line);
    }

    // Whether line `line` is up and may interrupt.
    fn is_raised(&self, line: u8) -> bool
        requires { line < 8 }
        ensures { result ≡ line_raised (lines_alone self.now) line }
    {
        is_set(self.enabled, line) && is_set(self.levels, line)
    }
}

#[tactic(auto, unfolding(crate::specs::Devices::ticked_devices, crate::specs::Devices::line_of, crate::specs::Devices::accepted, crate::specs::Devices::read_of, crate::specs::Devices::after_read, crate::specs::Devices::write_of, crate::specs::Time::timer_quiet, crate::specs::Time::quiet_of))]
impl Device for Lines {
    ghost use Rattle.std.specs.Prelude.{◌^◌};
    ghost use Rattle.devices.specs.Devices.{is_lines};
    ghost use Rattle.devices.specs.Parts.{lines_alone};

    ghost state = { lines_alone };

    ghost cycle = { λ _. 0 };

    ghost ticks_left = { λ _. 2 ^ 62 };

    ghost owns = { is_lines };

    fn tick(&mut self) {}

    fn line(&self) -> Option<u8> {
        if self.is_raised(3) {
            Some(LINES_VECTOR + 3)
        } else if self.is_raised(2) {
            Some(LINES_VECTOR + 2)
        } else if self.is_raised(1) {
            Some(LINES_VECTOR + 1)
        } else if self.is_raised(0) {
            Some(LINES_VECTOR)
        } else {
            None
        }
    }

    fn quiet(&self) -> u64 {
        MAX_TICKS
    }

    fn skip(&mut self, n: u64) {
        let _ = n;
    }

    fn accept(&mut self, vector: u8) {
        let _ = vector;
    }

    fn read(&mut self, addr: u16) -> u8 {
        match addr {
            LINES_ENABLE => self.enabled,
            LINES_LEVELS => self.levels,
            _ => 0,
        }
    }

    fn write(&mut self, addr: u16, byte: u8) {
        if addr == LINES_ENABLE {
            self.enabled = byte % 16;
        }
    }
}
