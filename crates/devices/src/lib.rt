//! The devices of the machine: four lines, a serial device and a timer, and the bus that joins them to a schedule.
//!
//! | Device | Address | Meaning |
//! |---|---|---|
//! | lines | 0x0040 | bits 0 to 3 enable lines 0 to 3 |
//! | lines | 0x0041 | bits 0 to 3 are the levels; writes are ignored |
//! | serial | 0x0070 | bit 0 enables the interrupt, bit 1 received, bit 2 overrun; a write sets bit 0 alone |
//! | serial | 0x0071 | a read gives the last received byte and clears bits 1 and 2; a write sends a byte |
//! | timer | 0x0160 | bit 0 run, bit 1 enable, bit 2 flag; a write sets all three |
//! | timer | 0x0162, 0x0163 | count, low byte first |
//! | timer | 0x0164, 0x0165 | limit, low byte first |
//!
//! Other bits and other addresses read 0 and ignore writes. Line N raises vector N + 1 while it is up and enabled, the
//! serial device raises vector 6 while it holds an unread byte and may interrupt, and the timer raises vector 8 while
//! its flag is set and it may interrupt.
#![tactic(auto)]

ghost use Rattle.std.specs.Prelude.{◌≡◌, ◌≢◌, [], ◌≤◌, ◌+◌, ◌-◌, ℕ, Bool, if◌then◌else◌};
ghost use Rattle.devices.specs.Devices.{Devices, ticked_devices, line_of, accepted, read_of, after_read, write_of};
ghost use Rattle.devices.specs.Time.{ticked_by, quiet_of};

mod bits;
mod bus;
mod lines;
pub mod registers;
mod serial;
mod timer;

pub use bus::{Bus, BusMark};
pub use lines::Lines;
pub use serial::Serial;
pub use timer::Timer;

/// An allocation failed.
pub type NoMemory = std::alloc::AllocError;

/// A device as the machine drives it, one tick a cycle.
///
/// A device stands for a state of the devices, in which all that it does not have is at rest.
pub trait Device {
    /// The state that it stands for.
    ghost state: { Self → Devices };

    /// The number of its next cycle, which rises from tick to tick where a schedule moves it.
    ghost cycle: { Self → ℕ };

    /// How many more ticks it can take before its cycle number overflows.
    ghost ticks_left: { Self → ℕ };

    /// Whether an address is one of its registers.
    ghost owns: { ℕ → Bool };

    /// Lets one cycle pass.
    fn tick(&mut self)
        requires left { 1 ≤ ticks_left self.old }
        ensures state { state self.new ≡ ticked_devices (state self.old) (cycle self.old) }
        ensures cycle { (state self.old).schedule ≢ [] → cycle self.new ≡ cycle self.old + 1 }
        ensures left { ticks_left self.old ≤ ticks_left self.new + 1 };

    /// The highest vector that it raises.
    fn line(&self) -> Option<u8>
        ensures vector { result ≡ line_of (state self.now) };

    /// A number of ticks during which the raised vector does not change.
    fn quiet(&self) -> u64
        ensures ticks { result ≡ quiet_of (state self.now) (cycle self.now) }
        ensures stays { (n : ℕ) → n ≤ result → line_of (ticked_by n (cycle self.now) (state self.now)) ≡
            line_of (state self.now) };

    /// Does what `n` ticks do.
    fn skip(&mut self, n: u64)
        requires left { n ≤ ticks_left self.old }
        ensures state { state self.new ≡ ticked_by n (cycle self.old) (state self.old) }
        ensures cycle { (state self.old).schedule ≢ [] → cycle self.new ≡ cycle self.old + n }
        ensures left { ticks_left self.old ≤ ticks_left self.new + n };

    /// Is told that its vector was accepted.
    fn accept(&mut self, vector: u8)
        ensures state { state self.new ≡ accepted (state self.old) vector }
        ensures cycle { cycle self.new ≡ cycle self.old }
        ensures left { ticks_left self.new ≡ ticks_left self.old };

    /// Reads the byte at an address.
    fn read(&mut self, addr: u16) -> u8
        ensures byte { result ≡ read_of (state self.old) addr }
        ensures state { state self.new ≡ after_read (state self.old) addr }
        ensures cycle { cycle self.new ≡ cycle self.old }
        ensures left { ticks_left self.new ≡ ticks_left self.old };

    /// Writes the byte at an address.
    fn write(&mut self, addr: u16, byte: u8)
        ensures state { state self.new ≡ (if owns addr then write_of (state self.old) addr byte else state self.old) }
        ensures cycle { cycle self.new ≡ cycle self.old }
        ensures left { ticks_left self.new ≡ ticks_left self.old };
}

/// As many ticks as a device takes at most.
const MAX_TICKS: u64 = 1 << 62;
