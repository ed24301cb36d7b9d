//! The text of a schedule, line by line.

ghost use Rattle.std.specs.Prelude.{◌≡◌, ◌≢◌, Ok, Err, IfOk, IfErr};
ghost use Rattle.schedule_file.specs.Reading.{schedule_of};

use crate::line::entry_of;
use crate::{Schedule, ScheduleFault};
use std::alloc::Global;
use texts::next_line;

/// A text has at most so many lines.
const MAX_LINES: u64 = 65_536;

/// The schedule that a text writes.
///
/// Line by line from 1, a line 65,537 is `TooMany`, a line of no form is `Line`, and one whose cycle is below that of
/// the line before is `NotRising`. The first of these is answered, unless memory runs out before.
#[tactic(auto, unfolding(crate::specs::Reading::schedule_of), using(crate::proofs::Order::never_fall))]
pub fn read_schedule(alloc: Global, bytes: &[u8]) -> Result<Schedule, ScheduleFault>
    ensures read { IfOk result (λ schedule. schedule_of bytes.now ≡ Ok schedule.entries.items) }
    ensures refused { IfErr result (λ fault. fault ≢ ScheduleFault.NoMemory → schedule_of bytes.now ≡ Err fault) }
{
    let mut entries = Vec::new(alloc);
    let mut rest = bytes;
    let mut n = 1;
    let mut low = 0;
    while let Some((line, after)) = next_line(rest) {
        if n > MAX_LINES {
            return Err(ScheduleFault::TooMany);
        }
        let Some(entry) = entry_of(line) else {
            return Err(ScheduleFault::Line { n });
        };
        if entry.cycle < low {
            return Err(ScheduleFault::NotRising { n });
        }
        if entries.push(entry).is_err() {
            return Err(ScheduleFault::NoMemory);
        }
        low = entry.cycle;
        rest = after;
        n += 1;
    }
    Ok(Schedule { entries })
}
