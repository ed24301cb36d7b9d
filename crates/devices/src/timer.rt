//! A timer that counts up to a limit.

ghost use Rattle.std.specs.Prelude.{◌≡◌, ◌+◌, ◌-◌, ◌%◌, []};
ghost use Rattle.devices.specs.Devices.{silent};
ghost use Rattle.devices.specs.Parts.{timer_alone};

use crate::bits::{bit_if, is_set, with_high, with_low};
use crate::registers::{
    TIMER_CONTROL, TIMER_COUNT, TIMER_COUNT_HIGH, TIMER_LIMIT, TIMER_LIMIT_HIGH, TIMER_VECTOR,
};
use crate::{Device, MAX_TICKS};
use std::marker::Model;

/// The timer's registers.
#[derive(Clone, Copy, Debug)]
pub struct Timer {
    running: bool,
    enabled: bool,
    flag: bool,
    count: u16,
    limit: u16,
}

impl Model for Timer {
    ghost use Rattle.std.specs.Prelude.{◌<◌};
    ghost use Rattle.devices.specs.Parts.{TimerPart};

    ghost Value = { TimerPart };

    ghost view = { λ t.
        record { running = t.running; alarm = t.enabled; flag = t.flag; count = t.count; limit = t.limit } };

    ghost invariant = { λ t. (t.count < 65536) × (t.limit < 65536) };

    ghost inverse = { λ d.
        record { running = d.running; enabled = d.alarm; flag = d.flag; count = d.count; limit = d.limit } };
}

impl Timer {
    /// Stopped at 0, interrupt disabled.
    pub fn new() -> Timer
        ensures silent { timer_alone result ≡ silent [] }
    {
        Timer {
            running: false,
            enabled: false,
            flag: false,
            count: 0,
            limit: 0,
        }
    }

    // The ticks after which a running timer stands at its limit.
    fn ticks_to_limit(&self) -> u64
        ensures { result ≡ (self.now.limit + 65536 - self.now.count) % 65536 }
    {
        u64::from(self.limit.wrapping_sub(self.count))
    }
}

#[tactic(auto, unfolding(crate::specs::Devices::ticked_devices, crate::specs::Devices::line_of, crate::specs::Devices::accepted, crate::specs::Devices::read_of, crate::specs::Devices::after_read, crate::specs::Devices::write_of, crate::specs::Time::timer_quiet, crate::specs::Time::quiet_of))]
impl Device for Timer {
    ghost use Rattle.std.specs.Prelude.{◌^◌};
    ghost use Rattle.devices.specs.Devices.{is_timer};
    ghost use Rattle.devices.specs.Parts.{timer_alone};

    ghost state = { timer_alone };

    ghost cycle = { λ _. 0 };

    ghost ticks_left = { λ _. 2 ^ 62 };

    ghost owns = { is_timer };

    fn tick(&mut self) {
        if !self.running {
            return;
        }
        if self.count == self.limit {
            self.count = 0;
            self.flag = true;
        } else {
            self.count = self.count.wrapping_add(1);
        }
    }

    fn line(&self) -> Option<u8> {
        if self.enabled && self.flag {
            Some(TIMER_VECTOR)
        } else {
            None
        }
    }

    fn quiet(&self) -> u64 {
        if self.running && self.enabled && !self.flag {
            self.ticks_to_limit()
        } else {
            MAX_TICKS
        }
    }

    fn skip(&mut self, n: u64) {
        if !self.running {
            return;
        }
        let to_limit = self.ticks_to_limit();
        if n <= to_limit {
            self.count = ((u64::from(self.count) + n) % 65_536) as u16;
        } else {
            self.count = ((n - to_limit - 1) % (u64::from(self.limit) + 1)) as u16;
            self.flag = true;
        }
    }

    fn accept(&mut self, vector: u8) {
        if vector == TIMER_VECTOR {
            self.flag = false;
        }
    }

    fn read(&mut self, addr: u16) -> u8 {
        match addr {
            TIMER_CONTROL => bit_if(self.running, 1)
                + bit_if(self.enabled, 2)
                + bit_if(self.flag, 4),
            TIMER_COUNT => (self.count % 256) as u8,
            TIMER_COUNT_HIGH => (self.count / 256) as u8,
            TIMER_LIMIT => (self.limit % 256) as u8,
            TIMER_LIMIT_HIGH => (self.limit / 256) as u8,
            _ => 0,
        }
    }

    fn write(&mut self, addr: u16, byte: u8) {
        match addr {
            TIMER_CONTROL => {
                self.running = is_set(byte, 0);
                self.enabled = is_set(byte, 1);
                self.flag = is_set(byte, 2);
            }
            TIMER_COUNT => self.count = with_low(self.count, byte),
            TIMER_COUNT_HIGH => self.count = with_high(self.count, byte),
            TIMER_LIMIT => self.limit = with_low(self.limit, byte),
            TIMER_LIMIT_HIGH => self.limit = with_high(self.limit, byte),
            _ => {}
        }
    }
}
