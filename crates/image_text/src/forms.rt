//! The forms of lines, in which `#` stands for a hexadecimal digit.

ghost use Rattle.std.specs.Prelude.{◌≡◌, ◌+◌, ◌*◌, ◌<◌, ◌^◌, ◌≤◌, length, Option, Some, OnOk, IfErr};
ghost use Rattle.image_text.specs.Refusal.{has_form as has_form_lem, fits as fits_lem, is_bad as is_bad_lem, bad_digit as bad_digit_lem, digits_bytes as digits_bytes_lem, digits_word as digits_word_lem, section_at as section_at_lem, Spot, formed as formed_lem};
ghost use Rattle.image_text.specs.internal.Reading.{HasLineForm, CodedAt};

use crate::ImageFault;
use crate::lines::Line;
use mod_layout::Section;
use texts::{is_hex_digit, read_hex_key, read_hex_word};

pub(crate) const KEY: &[u8; 36] = b"key ################################";

pub(crate) const HANDLER: &[u8; 12] = b"handler ####";

pub(crate) const MODULE: &[u8; 31] = b"module #### #### #### #### ####";

pub(crate) const ROW: &[u8; 40] = b"at #### ################################";

/// Whether the words, the spaces and the length of a line are those of the form.
pub(crate) fn has_form(form: &[u8], line: &[u8]) -> bool
    ensures { result ≡ has_form_lem form.now line.now }
{
    if form.len() != line.len() {
        return false;
    }
    for (index, byte) in line.iter().enumerate() {
        if !fits(form[index], *byte) {
            return false;
        }
    }
    true
}

/// The offset of the first byte that should be a digit and is none, of a line that begins at this offset.
pub(crate) fn bad_digit(form: &[u8], line: &[u8], at: u64) -> Option<u64>
    requires form { length form.now ≡ length line.now }
    requires bounded { at + length line.now < 2 ^ 63 }
    ensures { result ≡ bad_digit_lem form.now line.now at }
{
    for (index, byte) in line.iter().enumerate() {
        if is_bad(form[index], *byte) {
            return Some(at + index as u64);
        }
    }
    None
}

// A digit's place takes any byte but a space here.
fn fits(mark: u8, byte: u8) -> bool
    ensures { result ≡ fits_lem mark byte }
{
    if mark == b'#' {
        byte != b' '
    } else {
        byte == mark
    }
}

// A digit's place that has no digit.
fn is_bad(mark: u8, byte: u8) -> bool
    ensures { result ≡ is_bad_lem mark byte }
{
    mark == b'#' && !is_hex_digit(byte)
}

/// Line where a line has not this form, and Digit where a digit is none.
pub(crate) fn formed(line: Line<'_>, form: &[u8]) -> Result<(), ImageFault>
    requires { line.at + length line.text.now < 2 ^ 63 }
    ensures ok { OnOk result (HasLineForm form.now line.entry.text.now) }
    ensures err { IfErr result (λ fault. (rest : Option ImageFault) →
        formed_lem form.now record { number = line.entry.number; at = line.entry.at } line.entry.text.now rest ≡
        Some fault) }
{
    if !has_form(form, line.text) {
        return Err(ImageFault::Line { n: line.number });
    }
    match bad_digit(form, line.text, line.at) {
        Some(at) => Err(ImageFault::Digit { at }),
        None => Ok(()),
    }
}

/// The sixteen bytes that stand as digits at a place of a line.
#[tactic(auto, using(crate::proofs::FormLemmas::coded_read))]
pub(crate) fn sixteen_at(line: &[u8], from: usize) -> [u8; 16]
    requires { CodedAt line.now from 16 }
    ensures { result ≡ digits_bytes_lem from 16 line.now }
{
    match read_hex_key(&line[from..from + 32]) {
        Some(bytes) => bytes,
        None => unreachable!(),
    }
}

/// The word of the four digits at a place of a line.
#[tactic(auto, using(crate::proofs::FormLemmas::word_read))]
pub(crate) fn digits_word(line: &[u8], from: usize) -> u16
    requires { CodedAt line.now from 2 }
    ensures { result ≡ digits_word_lem from line.now }
{
    match read_hex_word(&line[from..from + 4]) {
        Some(word) => word,
        None => unreachable!(),
    }
}

/// The section whose ends stand at a place of a line.
pub(crate) fn section_at(line: &[u8], from: usize) -> Section
    requires start { CodedAt line.now from 2 }
    requires end { CodedAt line.now (from + 5) 2 }
    ensures { result ≡ section_at_lem from line.now }
{
    Section {
        start: digits_word(line, from),
        end: digits_word(line, from + 5),
    }
}
