//! The definition of the devices as a plain program, for tests: it looks at the whole schedule in each cycle.

use schedule_file::{Entry, What};

/// The registers, the byte that was sent, and the number of the next cycle.
#[derive(Clone, Copy, Debug, Default)]
pub struct Plain {
    enabled: u8,
    levels: u8,
    listening: bool,
    received: bool,
    overrun: bool,
    byte: u8,
    running: bool,
    alarm: bool,
    flag: bool,
    count: u16,
    limit: u16,
    pub sent: Option<u8>,
    cycle: u64,
}

impl Plain {
    pub fn tick(&mut self, schedule: &[Entry]) {
        self.sent = None;
        for entry in schedule {
            if entry.cycle == self.cycle {
                self.happen(entry.what);
            }
        }
        if self.running {
            self.step();
        }
        self.cycle = self.cycle.wrapping_add(1);
    }

    pub fn ticks(&mut self, n: u32, schedule: &[Entry]) {
        for _ in 0..n {
            self.tick(schedule);
        }
    }

    fn happen(&mut self, what: What) {
        match what {
            What::Serial(byte) => {
                self.overrun |= self.received;
                self.received = true;
                self.byte = byte;
            }
            What::Up(line) => self.levels |= 1 << (line % 4),
            What::Down(line) => self.levels &= !(1 << (line % 4)),
        }
    }

    fn step(&mut self) {
        if self.count == self.limit {
            self.count = 0;
            self.flag = true;
        } else {
            self.count = self.count.wrapping_add(1);
        }
    }

    pub fn line(&self) -> Option<u8> {
        if self.alarm && self.flag {
            return Some(8);
        }
        if self.listening && self.received {
            return Some(6);
        }
        for line in (0..4u8).rev() {
            if (self.enabled & self.levels) & (1 << line) != 0 {
                return Some(line + 1);
            }
        }
        None
    }

    pub fn quiet(&self, schedule: &[Entry]) -> u64 {
        let mut quiet = if self.running && self.alarm && !self.flag {
            u64::from(self.limit.wrapping_sub(self.count))
        } else {
            1 << 62
        };
        for entry in schedule {
            if entry.cycle >= self.cycle {
                quiet = quiet.min(entry.cycle - self.cycle);
            }
        }
        quiet
    }

    pub fn accept(&mut self, vector: u8) {
        self.flag = self.flag && vector != 8;
    }

    pub fn read(&mut self, addr: u16) -> u8 {
        match addr {
            0x40 => self.enabled,
            0x41 => self.levels,
            0x70 => control(self.listening, self.received, self.overrun),
            0x71 => {
                self.received = false;
                self.overrun = false;
                self.byte
            }
            0x160 => control(self.running, self.alarm, self.flag),
            0x162 => self.count.to_le_bytes()[0],
            0x163 => self.count.to_le_bytes()[1],
            0x164 => self.limit.to_le_bytes()[0],
            0x165 => self.limit.to_le_bytes()[1],
            _ => 0,
        }
    }

    pub fn write(&mut self, addr: u16, byte: u8) {
        match addr {
            0x40 => self.enabled = byte & 15,
            0x70 => self.listening = byte & 1 != 0,
            0x71 => self.sent = Some(byte),
            0x160 => {
                self.running = byte & 1 != 0;
                self.alarm = byte & 2 != 0;
                self.flag = byte & 4 != 0;
            }
            0x162 => self.count = u16::from_le_bytes([byte, self.count.to_le_bytes()[1]]),
            0x163 => self.count = u16::from_le_bytes([self.count.to_le_bytes()[0], byte]),
            0x164 => self.limit = u16::from_le_bytes([byte, self.limit.to_le_bytes()[1]]),
            0x165 => self.limit = u16::from_le_bytes([self.limit.to_le_bytes()[0], byte]),
            _ => {}
        }
    }
}

fn control(first: bool, second: bool, third: bool) -> u8 {
    u8::from(first) | u8::from(second) << 1 | u8::from(third) << 2
}
