//! One line of a schedule.

ghost use Rattle.std.specs.Prelude.{◌≡◌, true, IfSome};
ghost use Rattle.schedule_file.specs.Entries.{HasLine, has_line};
ghost use Rattle.schedule_file.specs.Line as spec;

use crate::{Entry, MAX_CYCLE, What};
use texts::{first_space, read_decimal, read_hex_byte};

// The entry that a line writes.
#[tactic(auto, unfolding(crate::specs::Line::entry_of))]
pub fn entry_of(line: &[u8]) -> Option<Entry>
    ensures entry { result ≡ spec.entry_of line.now }
    ensures line { IfSome result HasLine }
{
    let space = first_space(line)?;
    let cycle = read_decimal(&line[..space], MAX_CYCLE)?;
    let what = what_of(&line[space + 1..])?;
    Some(Entry { cycle, what })
}

// What happens, from what stands after the cycle and its space.
fn what_of(text: &[u8]) -> Option<What>
    ensures what { result ≡ spec.what_of text.now }
    ensures line { IfSome result (λ what. has_line what ≡ true) }
{
    if let Some(digits) = text.strip_prefix(b"serial ") {
        return read_hex_byte(digits).map(|byte| What::Serial(byte));
    }
    move_of(text.strip_prefix(b"line ")?)
}

// A line's number, and whether it goes up or down.
#[tactic(auto, using(std::proofs::lemmas::Bool::Decides::nat_tests))]
fn move_of(text: &[u8]) -> Option<What>
    ensures movement { result ≡ spec.move_of text.now }
    ensures line { IfSome result (λ what. has_line what ≡ true) }
{
    let (number, word) = text.split_first()?;
    let line = match *number {
        b'0'..=b'3' => *number - b'0',
        _ => return None,
    };
    if word == b" up".as_slice() {
        Some(What::Up(line))
    } else if word == b" down".as_slice() {
        Some(What::Down(line))
    } else {
        None
    }
}
