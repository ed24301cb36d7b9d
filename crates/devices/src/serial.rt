//! A serial device: a byte that came, and a byte that is sent.

ghost use Rattle.std.specs.Prelude.{◌≡◌, ◌||◌, true, []};
ghost use Rattle.devices.specs.Devices.{silent};
ghost use Rattle.devices.specs.Parts.{serial_alone};

use crate::bits::{bit_if, is_set};
use crate::registers::{SERIAL_CONTROL, SERIAL_DATA, SERIAL_VECTOR};
use crate::{Device, MAX_TICKS};
use std::marker::Model;

/// The serial device's registers, and the byte that was sent in this cycle.
#[derive(Clone, Copy, Debug)]
pub struct Serial {
    listening: bool,
    received: bool,
    overrun: bool,
    byte: u8,
    sent: Option<u8>,
}

impl Model for Serial {
    ghost use Rattle.devices.specs.Parts.{SerialPart};

    ghost Value = { SerialPart };

    ghost view = { λ s.
        record { listening = s.listening; got = s.received; lost = s.overrun; byte = s.byte; sent = s.sent } };

    ghost inverse = { λ d.
        record { listening = d.listening; received = d.got; overrun = d.lost; byte = d.byte; sent = d.sent } };
}

impl Serial {
    /// Nothing received, nothing sent, interrupt disabled.
    pub fn new() -> Serial
        ensures silent { serial_alone result ≡ silent [] }
    {
        Serial {
            listening: false,
            received: false,
            overrun: false,
            byte: 0,
            sent: None,
        }
    }

    /// A byte comes from outside. One that was not read is lost, and the overrun is noted.
    pub fn receive(&mut self, byte: u8)
        ensures { self.new ≡ record self.old { got = true; lost = self.old.lost || self.old.got; byte = byte } }
    {
        self.overrun = self.overrun || self.received;
        self.received = true;
        self.byte = byte;
    }

    /// The byte that was sent in this cycle.
    pub fn sent(&self) -> Option<u8>
        ensures { result ≡ self.now.sent }
    {
        self.sent
    }
}

#[tactic(auto, unfolding(crate::specs::Devices::ticked_devices, crate::specs::Devices::line_of, crate::specs::Devices::accepted, crate::specs::Devices::read_of, crate::specs::Devices::after_read, crate::specs::Devices::write_of, crate::specs::Time::timer_quiet, crate::specs::Time::quiet_of))]
impl Device for Serial {
    ghost use Rattle.std.specs.Prelude.{◌^◌};
    ghost use Rattle.devices.specs.Devices.{is_serial};
    ghost use Rattle.devices.specs.Parts.{serial_alone};

    ghost state = { serial_alone };

    ghost cycle = { λ _. 0 };

    ghost ticks_left = { λ _. 2 ^ 62 };

    ghost owns = { is_serial };

    fn tick(&mut self) {
        self.sent = None;
    }

    fn line(&self) -> Option<u8> {
        if self.listening && self.received {
            Some(SERIAL_VECTOR)
        } else {
            None
        }
    }

    fn quiet(&self) -> u64 {
        MAX_TICKS
    }

    fn skip(&mut self, n: u64) {
        if n > 0 {
            self.sent = None;
        }
    }

    fn accept(&mut self, vector: u8) {
        let _ = vector;
    }

    fn read(&mut self, addr: u16) -> u8 {
        match addr {
            SERIAL_CONTROL => bit_if(self.listening, 1)
                + bit_if(self.received, 2)
                + bit_if(self.overrun, 4),
            SERIAL_DATA => {
                self.received = false;
                self.overrun = false;
                self.byte
            }
            _ => 0,
        }
    }

    fn write(&mut self, addr: u16, byte: u8) {
        match addr {
            SERIAL_CONTROL => self.listening = is_set(byte, 0),
            SERIAL_DATA => self.sent = Some(byte),
            _ => {}
        }
    }
}
