//! The text of certificates, line by line.

ghost use Rattle.std.specs.Prelude.{◌≡◌, ◌≢◌, Ok, Err, IfOk, IfErr};
ghost use Rattle.texts.specs.Decimals.{read_decimal};
ghost use Rattle.arm_balance.specs.Certificates as spec;

use crate::{Arm, Arms, ArmsFault};
use std::alloc::Global;
use texts::{next_line, read_decimal, read_hex_word};

/// A text has at most so many lines.
const MAX_LINES: u64 = 256;

/// The certificates that a text writes.
///
/// Line by line from 1, a line 257 is `TooMany`, a line of another form is `Line`, and one whose branch is not above
/// that of the line before is `NotRising`. The first of these is answered, unless memory runs out before.
#[tactic(auto, unfolding(crate::specs::Certificates::arms_of))]
pub fn read_arms(alloc: Global, bytes: &[u8]) -> Result<Arms, ArmsFault>
    ensures read { IfOk result (λ arms. spec.arms_of bytes.now ≡ Ok arms.list.items) }
    ensures refused { IfErr result (λ fault. fault ≢ ArmsFault.NoMemory → spec.arms_of bytes.now ≡ Err fault) }
{
    let mut list = Vec::new(alloc);
    let mut rest = bytes;
    let mut n = 1;
    let mut low: u32 = 0;
    while let Some((line, after)) = next_line(rest) {
        if n > MAX_LINES {
            return Err(ArmsFault::TooMany);
        }
        let Some(arm) = arm_of(line) else {
            return Err(ArmsFault::Line { n });
        };
        if u32::from(arm.branch) < low {
            return Err(ArmsFault::NotRising { n });
        }
        if list.push(arm).is_err() {
            return Err(ArmsFault::NoMemory);
        }
        low = u32::from(arm.branch) + 1;
        rest = after;
        n += 1;
    }
    Ok(Arms { list })
}

// The certificate that a line writes.
#[tactic(auto, unfolding(crate::specs::Certificates::arm_of))]
fn arm_of(line: &[u8]) -> Option<Arm>
    ensures { result ≡ spec.arm_of line.now }
{
    if !has_spaces(line) {
        return None;
    }
    let branch = read_hex_word(&line[..4])?;
    let join = read_hex_word(&line[5..9])?;
    let cycles = read_cycles(&line[10..])?;
    Some(Arm {
        branch,
        join,
        cycles,
    })
}

// Whether spaces stand where a line has them.
fn has_spaces(line: &[u8]) -> bool
    ensures { result ≡ spec.has_spaces line.now }
{
    line.len() >= 10 && line[4] == b' ' && line[9] == b' '
}

// A decimal of at most 65,535.
#[tactic(auto, using(crate::proofs::Reading::decimal_most))]
fn read_cycles(text: &[u8]) -> Option<u16>
    ensures { result ≡ read_decimal 65535 text.now }
{
    match read_decimal(text, 65_535) {
        Some(cycles) => Some(cycles as u16),
        None => None,
    }
}
