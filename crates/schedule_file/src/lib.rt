//! Schedules of outside events, and their text.
//!
//! A text has lines `CYCLE serial HH`, `CYCLE line N up` and `CYCLE line N down`. CYCLE is a decimal of at most 18
//! digits without leading zero, HH two lower-case hexadecimal digits and N a line from 0 to 3. The cycles never fall.
//! The last line may lack its LF.
#![tactic(auto)]

ghost use Rattle.std.specs.Prelude.{All};
ghost use Rattle.schedule_file.specs.Entries.{HasLine, CyclesNeverFall};

pub mod laws;
mod line;
mod reading;

pub use reading::read_schedule;

/// The last cycle of at most eighteen decimal digits.
pub const MAX_CYCLE: u64 = 999_999_999_999_999_999;

// What the rules say of them: a changed number is refused here.
const _: () = prove!(MAX_CYCLE == 999_999_999_999_999_999);

/// What happens outside the machine.
#[derive(Clone, Copy, Debug, PartialEq, Eq)]
pub enum What {
    /// The serial device receives this byte.
    Serial(u8),
    /// The line of this number goes up.
    Up(u8),
    /// The line of this number goes down.
    Down(u8),
}

/// What happens in the cycle of this number.
#[derive(Clone, Copy, Debug, PartialEq, Eq)]
pub struct Entry {
    pub cycle: u64,
    pub what: What,
}

/// Outside events in the order of their cycles, each of one of the lines 0 to 3 or a serial byte.
#[derive(Debug, Drop)]
pub struct Schedule {
    pub entries: Vec<Entry>,
    ghost cycles_never_fall: { CyclesNeverFall entries.items },
    ghost lines: { All HasLine entries.items },
}

/// Why a text is no schedule.
#[derive(Clone, Copy, Debug, PartialEq, Eq)]
pub enum ScheduleFault {
    /// Line `n`, counted from 1, has none of the forms.
    Line { n: u64 },
    /// The cycle of line `n` is below that of the line before.
    NotRising { n: u64 },
    /// There is a line 65,537.
    TooMany,
    /// Memory ran out.
    NoMemory,
}
