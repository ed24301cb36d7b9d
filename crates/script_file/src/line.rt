//! One line of a script.

ghost use Rattle.std.specs.Prelude.{◌≡◌, ◌≤◌, ◌<◌, ◌^◌, IfOk};
ghost use Rattle.script_file.specs.Bounds.{IsBounded};
ghost use Rattle.script_file.specs.Line as spec;
ghost use Rattle.script_file.specs.internal.Line as inner;

use crate::{MAX_BYTES, MAX_CYCLES, MAX_MARK, MEMORY_END, ScriptLine};
use mod_layout::DEVICES_END;
use texts::{is_decimal, read_decimal, read_hex_word};

/// Why a text is not a line of a script.
#[derive(Clone, Copy, Debug, PartialEq, Eq)]
pub enum LineFault {
    /// It has none of the forms.
    Form,
    /// It has a form, and a number is out of bounds.
    Bounds,
}

/// What some lines name: an address, and a number.
pub struct Operands {
    addr: u16,
    number: u64,
}

/// The line that a text writes.
#[tactic(auto, unfolding(crate::specs::Line::form_of))]
pub fn line_of(text: &[u8]) -> Result<ScriptLine, LineFault>
    ensures line { result ≡ spec.checked (spec.form_of text.now) }
    ensures bounds { IfOk result IsBounded }
{
    if let Some(rest) = text.strip_prefix(b"go ") {
        return go_line(rest);
    }
    if let Some(rest) = text.strip_prefix(b"until ") {
        return until_line(rest);
    }
    if let Some(rest) = text.strip_prefix(b"mem ") {
        return mem_line(rest);
    }
    if let Some(rest) = text.strip_prefix(b"back ") {
        return back_line(rest);
    }
    if let Some(rest) = text.strip_prefix(b"last ") {
        return last_line(rest);
    }
    bare_line(text)
}

// A line without numbers.
fn bare_line(text: &[u8]) -> Result<ScriptLine, LineFault>
    ensures line { result ≡ spec.checked (spec.bare_form text.now) }
    ensures bounds { IfOk result IsBounded }
{
    if text == b"regs".as_slice() {
        Ok(ScriptLine::Regs)
    } else if text == b"mark".as_slice() {
        Ok(ScriptLine::Mark)
    } else {
        Err(LineFault::Form)
    }
}

// `go N`, from what stands behind the name.
fn go_line(text: &[u8]) -> Result<ScriptLine, LineFault>
    ensures line { result ≡ spec.checked (spec.go_form text.now) }
    ensures bounds { IfOk result IsBounded }
{
    match read_number(text, MAX_CYCLES) {
        Ok(cycles) => Ok(ScriptLine::Go(cycles as u32)),
        Err(fault) => Err(fault),
    }
}

// `until AAAA N`, from what stands behind the name.
fn until_line(text: &[u8]) -> Result<ScriptLine, LineFault>
    ensures line { result ≡ spec.checked (spec.until_form text.now) }
    ensures bounds { IfOk result IsBounded }
{
    match read_operands(text, MAX_CYCLES) {
        Ok(Operands { addr, number }) => Ok(ScriptLine::Until {
            addr,
            limit: number as u32,
        }),
        Err(fault) => Err(fault),
    }
}

// `mem AAAA N`, from what stands behind the name.
fn mem_line(text: &[u8]) -> Result<ScriptLine, LineFault>
    ensures line { result ≡ spec.checked (spec.mem_form text.now) }
    ensures bounds { IfOk result IsBounded }
{
    match read_operands(text, MAX_BYTES) {
        Ok(Operands { addr, number }) => {
            if addr < DEVICES_END || number < 1 || u64::from(addr) + number > MEMORY_END {
                Err(LineFault::Bounds)
            } else {
                Ok(ScriptLine::Mem {
                    addr,
                    count: number as u16,
                })
            }
        }
        Err(fault) => Err(fault),
    }
}

// `back K`, from what stands behind the name.
fn back_line(text: &[u8]) -> Result<ScriptLine, LineFault>
    ensures line { result ≡ spec.checked (spec.back_form text.now) }
    ensures bounds { IfOk result IsBounded }
{
    match read_number(text, MAX_MARK) {
        Ok(k) => Ok(ScriptLine::Back(k as u16)),
        Err(fault) => Err(fault),
    }
}

// `last AAAA K`, from what stands behind the name.
fn last_line(text: &[u8]) -> Result<ScriptLine, LineFault>
    ensures line { result ≡ spec.checked (spec.last_form text.now) }
    ensures bounds { IfOk result IsBounded }
{
    match read_operands(text, MAX_MARK) {
        Ok(Operands { addr, number }) => Ok(ScriptLine::Last {
            addr,
            k: number as u16,
        }),
        Err(fault) => Err(fault),
    }
}

// An address, a space and a number that is at most `most`.
#[tactic(auto, unfolding(crate::specs::Line::operands_of))]
fn read_operands(text: &[u8], most: u64) -> Result<Operands, LineFault>
    ensures both { result ≡ inner.up_to_operands most (spec.operands_of text.now) }
    ensures most { IfOk result (λ both. both.number ≤ most) }
{
    if text.len() < 5 || text[4] != b' ' {
        return Err(LineFault::Form);
    }
    let Some(addr) = read_hex_word(&text[..4]) else {
        return Err(LineFault::Form);
    };
    match read_number(&text[5..], most) {
        Ok(number) => Ok(Operands { addr, number }),
        Err(fault) => Err(fault),
    }
}

// A number that is at most `most`.
#[tactic(auto, unfolding(texts::specs::Decimals::read_decimal))]
fn read_number(text: &[u8], most: u64) -> Result<u64, LineFault>
    ensures number { result ≡ inner.up_to most (spec.read_any_decimal text.now) }
    ensures most { IfOk result (λ n. n ≤ most) }
{
    if !is_decimal(text) {
        return Err(LineFault::Form);
    }
    match read_decimal(text, most) {
        Some(number) => Ok(number),
        None => Err(LineFault::Bounds),
    }
}
