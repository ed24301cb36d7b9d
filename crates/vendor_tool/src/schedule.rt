//! The schedule that sends challenges.

ghost use Rattle.std.specs.Prelude.{◌≡◌, ◌++◌, ◌≤◌, ◌+◌, ◌*◌, ◌<◌, ◌^◌, Ok, IfOk, OnOk};
ghost use Rattle.schedule_file.specs.Reading.{schedule_of};
ghost use Rattle.schedule_file.specs.declared.What.TheVariants.{Serial};
ghost use Rattle.vendor_tool.specs.Challenges.{IsChallenge};
ghost use Rattle.vendor_tool.specs.NonceSchedule.{nonce_entries, schedule_entries, schedule_line, entries_text};

use crate::{BYTE_STEP, Challenge, Challenges};
use arrayvec::ArrayString;
use schedule_file::laws::one_line_an_entry;
use std::alloc::{AllocError, Global};
use texts::{push_decimal, push_hex_byte};

/// The text of the schedule that sends the challenges over the serial line: byte i of a nonce, counted from 0, is
/// received 100 * i cycles after the challenge's cycle. It is read as exactly these entries.
pub fn schedule_text(alloc: Global, challenges: &Challenges) -> Result<Vec<u8>, AllocError>
    ensures text { IfOk result (λ text. text.items ≡ entries_text (schedule_entries challenges.now.list.items)) }
    ensures read { IfOk result (λ text. schedule_of text.items ≡ Ok (schedule_entries challenges.now.list.items)) }
{
    one_line_an_entry();
    let mut text = Vec::new(alloc);
    for challenge in &challenges.list {
        push_nonce(challenge, &mut text)?;
    }
    Ok(text)
}

// Appends the lines of a nonce's bytes.
fn push_nonce(challenge: &Challenge, text: &mut Vec<u8>) -> Result<(), AllocError>
    requires { IsChallenge challenge.now }
    ensures { OnOk result (text.new.items ≡ text.old.items ++ entries_text (nonce_entries challenge.now)) }
{
    let mut cycle = challenge.cycle;
    for byte in &challenge.nonce {
        push_entry(cycle, *byte, text)?;
        cycle += BYTE_STEP;
    }
    Ok(())
}

// Appends the line of one byte.
fn push_entry(cycle: u64, byte: u8, text: &mut Vec<u8>) -> Result<(), AllocError>
    ensures { OnOk result (text.new.items ≡ text.old.items
        ++ schedule_line (record { cycle = cycle; what = Serial byte })) }
{
    let mut line = ArrayString::<32>::new();
    push_decimal(cycle, &mut line);
    line.push_str(" serial ");
    push_hex_byte(byte, &mut line);
    line.push_str("\n");
    text.extend_from_slice(line.as_str().as_bytes())
}
