//! `sweep IMAGE IMAGE LINE FROM TO CYCLES`: what a pulse in each cycle of a span does to two images.
ghost use Rattle.std.specs.Prelude.{◌≡◌, IfSome};
ghost use Rattle.sm_io.specs.Sink.{Took, CutOff};
ghost use Rattle.cli_calls.specs.Runs.{EndsAs};
ghost use Rattle.lab_cli.specs.SweepCommand.{pulses_of, sweep_command, read_sweep, sweep_status};
ghost use Rattle.lab_cli.specs.internal.SweepCommand.{IsWithin};

use cli_calls::{Answering, Reading, read_cycles};
use cli_files::{NO_MEMORY, Refused, Status, load};
use image_text::Image;
use pulse_sweep::{Pulses, Swept};
use schedule_file::MAX_CYCLE;
use sm_io::{Failed, Files, Sink, put_all};
use std::alloc::{AllocError, Global};
use texts::read_decimal;

/// The largest number of a line.
const MAX_LINE: u64 = 3;

// What the rules say of it: a changed number is refused here.
const _: () = prove!(MAX_LINE == 3);

/// The arguments: two images, and the runs of each.
#[derive(Clone, Copy)]
pub struct SweepCommand<'a> {
    pub first: &'a str,
    pub second: &'a str,
    pub pulses: Pulses,
}

impl<'a> Reading<'a> for SweepCommand<'a> {
    ghost asks = { read_sweep };

    fn read_values(_alloc: Global, values: &[&'a str]) -> Result<Option<Self>, AllocError> {
        match values {
            [first, second, line, from, to, cycles] => match pulses_of(line, from, to, cycles) {
                Some(pulses) => Ok(Some(SweepCommand {
                    first,
                    second,
                    pulses,
                })),
                None => Ok(None),
            },
            _ => Ok(None),
        }
    }
}

fn pulses_of(line: &str, from: &str, to: &str, cycles: &str) -> Option<Pulses>
    ensures pulses { result ≡ pulses_of line.now from.now to.now cycles.now }
    ensures bounds { IfSome result IsWithin }
{
    Some(Pulses {
        line: read_decimal(line.as_bytes(), MAX_LINE)? as u8,
        from: read_decimal(from.as_bytes(), MAX_CYCLE)?,
        to: read_decimal(to.as_bytes(), MAX_CYCLE)?,
        cycles: read_cycles(cycles)?,
    })
}

impl Answering for SweepCommand<'_> {
    ghost asked = { λ c. sweep_command c.first.now c.second.now c.pulses };

    ghost bounds = { λ c. IsWithin c.pulses };

    fn answer<F: Files, O: Sink>(
        &self,
        alloc: Global,
        files: &mut F,
        out: &mut O,
    ) -> Result<Status, Refused<'_>> {
        let first = match load::<Image, F>(alloc, self.first, files) {
            Ok(first) => first,
            Err(refused) => return Err(refused),
        };
        let second = match load::<Image, F>(alloc, self.second, files) {
            Ok(second) => second,
            Err(refused) => return Err(refused),
        };
        match pulse_sweep::sweep(alloc, &first, &second, &self.pulses) {
            Ok(swept) => Ok(put_swept(&swept, out)),
            Err(AllocError) => Err(NO_MEMORY),
        }
    }
}

// Puts the text of a sweep.
fn put_swept<O: Sink>(swept: &Swept, out: &mut O) -> Status
    ensures { EndsAs result (record { text = swept.now.text.items; status = sweep_status swept.now.different })
        (Took O.taken O.faults O.sure out.old out.new) (CutOff O.taken O.faults O.sure out.old out.new) }
{
    match put_all(out, swept.text.as_slice()) {
        Ok(()) if swept.different == 0 => Status::Done,
        Ok(()) => Status::CheckNo,
        Err(Failed) => Status::WriteFault,
    }
}
