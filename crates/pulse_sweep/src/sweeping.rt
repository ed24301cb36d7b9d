//! A sweep: a row for each pulse.

ghost use Rattle.std.specs.Prelude.{◌≡◌, ◌<◌, ◌≤◌, ◌+◌, ◌++◌, ◌^◌, ℕ, cond, not, IfOk, OnOk};
ghost use Rattle.written_machine.specs.Peers.{Peers};
ghost use Rattle.pulse_sweep.specs.Sweep as spec;

use crate::row::{push_decimal, push_row};
use crate::run::run_pulse;
use crate::{NoMemory, Pulses, Swept, laws};
use image_text::Image;
use std::alloc::Global;

/// Runs both images with a pulse in each of the cycles, and writes a row for each: when the handler begins, a module
/// is left and a byte is sent, and whether the traces are the same or in which line they differ.
pub fn sweep(
    alloc: Global,
    first: &Image,
    second: &Image,
    pulses: &Pulses,
) -> Result<Swept, NoMemory>
    requires line { pulses.now.line < 4 }
    requires last { pulses.now.to < 2 ^ 63 }
    requires cycles { pulses.now.cycles ≤ 2 ^ 62 }
    ensures text { IfOk result (λ swept. swept.text.items ≡ spec.sweep_text pulses.now first.now second.now) }
    ensures different { IfOk result (λ swept. swept.different ≡ spec.different pulses.now first.now second.now) }

    // Images that differ in one confined module's data alone differ in no row.
    ensures peers { IfOk result (λ swept. (m : ℕ) → Peers first.now second.now m → swept.different ≡ 0) }
{
    laws::peers();
    let mut swept = Swept {
        text: Vec::new(alloc),
        different: 0,
    };
    let count = (pulses.to + 1).saturating_sub(pulses.from);
    for i in 0..count {
        swept.add_row(alloc, first, second, pulses, pulses.from + i)?;
    }
    let different = swept.different;
    push_end(count - different, different, &mut swept.text)?;
    Ok(swept)
}

impl Swept {
    // A row more.
    #[tactic(auto, unfolding(crate::specs::Sweep::row_at))]
    fn add_row(
        &mut self,
        alloc: Global,
        first: &Image,
        second: &Image,
        pulses: &Pulses,
        pulse: u64,
    ) -> Result<(), NoMemory>
        requires line { pulses.now.line < 4 }
        requires cycles { pulses.now.cycles ≤ 2 ^ 62 }
        requires few { self.old.different < 2 ^ 63 }
        ensures text { OnOk result (self.new.text.items ≡
            self.old.text.items ++ spec.row_at pulses.now first.now second.now pulse) }
        ensures different { OnOk result (self.new.different ≡
            self.old.different + cond (not (spec.is_same_at pulses.now first.now second.now pulse)) 1 0) }
    {
        let first = run_pulse(alloc, first, pulses, pulse)?;
        let second = run_pulse(alloc, second, pulses, pulse)?;
        self.different += u64::from(first.trace != second.trace);
        push_row(pulse, &first, &second, &mut self.text)?;
        Ok(())
    }
}

// Appends the end line.
#[tactic(auto, unfolding(crate::specs::Sweep::sweep_end_text))]
fn push_end(same: u64, different: u64, text: &mut Vec<u8>) -> Result<(), NoMemory>
    ensures { OnOk result (text.new.items ≡ text.old.items ++ spec.sweep_end_text same different) }
{
    text.extend_from_slice(b"end ")?;
    push_decimal(same, text)?;
    text.extend_from_slice(b" same ")?;
    push_decimal(different, text)?;
    text.extend_from_slice(b" different\n")?;
    Ok(())
}
