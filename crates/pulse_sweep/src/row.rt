//! The text of a row.

ghost use Rattle.std.specs.Prelude.{◌≡◌, ◌+◌, ◌++◌, [], codes, get_or, OnOk};
ghost use Rattle.std.specs.Fmt as fmt;
ghost use Rattle.pulse_sweep.specs.Rows as spec;
ghost use Rattle.pulse_sweep.specs.internal.Told.{common_lines};
ghost use Rattle.texts.specs.Lines.{lines_of};

use crate::NoMemory;
use crate::columns::Columns;
use crate::run::Run;
use texts::{decimal, next_line};

/// Appends the row of a pulse in this cycle.
pub fn push_row(pulse: u64, first: &Run, second: &Run, text: &mut Vec<u8>) -> Result<(), NoMemory>
    ensures { OnOk result (text.new.items ≡ text.old.items
        ++ spec.columns_text pulse first.now.columns second.now.columns
        ++ spec.ending first.now.trace.items second.now.trace.items) }
{
    push_columns(pulse, &first.columns, &second.columns, text)?;
    if first.trace == second.trace {
        text.extend_from_slice(b" same\n")
    } else {
        push_difference(first.trace.as_slice(), second.trace.as_slice(), text)
    }
}

// Appends what both runs say of a pulse.
fn push_columns(
    pulse: u64,
    first: &Columns,
    second: &Columns,
    text: &mut Vec<u8>,
) -> Result<(), NoMemory>
    ensures { OnOk result (text.new.items ≡ text.old.items ++ spec.columns_text pulse first.now second.now) }
{
    text.extend_from_slice(b"pulse ")?;
    push_decimal(pulse, text)?;
    push_both(b" begins", first.begins, second.begins, text)?;
    push_both(b" leave", first.leaves, second.leaves, text)?;
    push_both(b" out", first.sends, second.sends, text)
}

// Appends a label and a number of each run.
fn push_both(
    label: &[u8],
    first: Option<u64>,
    second: Option<u64>,
    text: &mut Vec<u8>,
) -> Result<(), NoMemory>
    ensures { OnOk result (text.new.items ≡ text.old.items ++ spec.both_text label.now first second) }
{
    text.extend_from_slice(label)?;
    push_number(first, text)?;
    push_number(second, text)
}

// Appends a number, or `-`, after a blank.
fn push_number(number: Option<u64>, text: &mut Vec<u8>) -> Result<(), NoMemory>
    ensures { OnOk result (text.new.items ≡ text.old.items ++ codes " " ++ spec.number_or_dash number) }
{
    text.extend_from_slice(b" ")?;
    match number {
        Some(number) => push_decimal(number, text),
        None => text.extend_from_slice(b"-"),
    }
}

/// Appends a number.
pub fn push_decimal(number: u64, text: &mut Vec<u8>) -> Result<(), NoMemory>
    ensures { OnOk result (text.new.items ≡ text.old.items ++ fmt.decimal number) }
{
    text.extend_from_slice(decimal(number).as_str().as_bytes())
}

// Appends the first lines that differ.
fn push_difference(first: &[u8], second: &[u8], text: &mut Vec<u8>) -> Result<(), NoMemory>
    ensures { OnOk result (text.new.items ≡ text.old.items ++ spec.difference (lines_of first.now) (lines_of second.now)) }
{
    let lines = different_lines(first, second);
    text.extend_from_slice(b" line ")?;
    push_decimal(lines.number, text)?;
    text.extend_from_slice(b"\n1 ")?;
    text.extend_from_slice(lines.first)?;
    text.extend_from_slice(b"\n2 ")?;
    text.extend_from_slice(lines.second)?;
    text.extend_from_slice(b"\n")?;
    Ok(())
}

/// A line of each of two texts, and its number.
#[derive(Clone, Copy)]
struct Lines<'a> {
    number: u64,
    first: &'a [u8],
    second: &'a [u8],
}

// The first lines that differ, and nothing in place of a line that is not there.
fn different_lines<'a>(first: &'a [u8], second: &'a [u8]) -> Lines<'a>
    ensures number { result.number ≡ common_lines first.now second.now + 1 }
    ensures first { result.first.now ≡ get_or (lines_of first.now) (common_lines first.now second.now) [] }
    ensures second { result.second.now ≡ get_or (lines_of second.now) (common_lines first.now second.now) [] }
{
    let mut number = 1;
    let mut rest = first;
    let mut other_rest = second;
    while let (Some((line, after)), Some((other, other_after))) = (
        next_line(rest),
        next_line(other_rest),
    ) {
        if line != other {
            break;
        }
        number += 1;
        rest = after;
        other_rest = other_after;
    }
    Lines {
        number,
        first: first_line(rest),
        second: first_line(other_rest),
    }
}

// The first line, or nothing.
fn first_line(text: &[u8]) -> &[u8]
    ensures { result.now ≡ get_or (lines_of text.now) 0 [] }
{
    match next_line(text) {
        Some((line, _)) => line,
        None => &[],
    }
}
