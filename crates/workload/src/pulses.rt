//! The schedule of a workload: pulses on line 0.

ghost use Rattle.std.specs.Prelude.{◌≡◌, ◌<◌, ◌^◌, IfOk};
ghost use Rattle.workload.specs.Pulses.{pulses};

use crate::draws::next;
use schedule_file::{Entry, Schedule, What};
use std::alloc::{AllocError, Global};

/// How many pulses there are.
pub const COUNT: u64 = 1_000;

/// The first cycle in which the first pulse may begin.
pub const FIRST: u64 = 20;

/// How many cycles later the next may.
pub const GAP: u64 = 190;

/// How many cycles a pulse may begin late.
pub const SPREAD: u64 = 100;

/// The line that each pulse is on.
pub const LINE: u8 = 0;

// What the rules say of them: a changed number is refused here.
const _: () = prove!(COUNT == 1_000 && FIRST == 20 && GAP == 190 && LINE == 0 && SPREAD == 100);

/// The pulses that a seed gives: each goes up at a time that is drawn, and down in the next cycle.
pub fn schedule(alloc: Global, seed: u32) -> Result<Schedule, AllocError>
    ensures pulses { IfOk result (λ s. s.entries.items ≡ pulses seed COUNT) }
{
    let mut entries = Vec::new(alloc);
    let mut drawn = next(u64::from(seed));
    for number in 0..COUNT {
        drawn = next(drawn);
        let cycle = FIRST + GAP * number + drawn % SPREAD;
        entries.push(Entry {
            cycle,
            what: What::Up(LINE),
        })?;
        entries.push(Entry {
            cycle: cycle + 1,
            what: What::Down(LINE),
        })?;
    }
    Ok(Schedule { entries })
}
