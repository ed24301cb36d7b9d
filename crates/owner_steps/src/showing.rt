//! The lines that the owner is shown.

ghost use Rattle.std.specs.Prelude.{◌≡◌, ◌+◌, ◌*◌, ◌<◌, ◌≤◌, ◌++◌, [], length, codes};
ghost use Rattle.std.specs.List.{flat_map};
ghost use Rattle.arrayvec.specs.ArrayString.{array_string_len};
ghost use Rattle.texts.specs.Hexadecimals.{hex_word};
ghost use Rattle.insn_decode.specs.Code.{IsDecoded};
ghost use Rattle.insn_decode.specs.Text.{insn_text};
ghost use Rattle.cpu_step.specs.Through.{AreAligned};
ghost use Rattle.written_machine.specs.Checks.{entered};
ghost use Rattle.owner_steps.specs.Begun as spec;
ghost use Rattle.owner_steps.specs.Registers.{line_if, register_text, registers_line};
ghost use Rattle.owner_steps.specs.internal.Touching.{plan_shown};

use crate::touching::{Touch, shown_touches};
use arrayvec::ArrayString;
use board::Settled;
use insn_decode::{Insn, show};
use sm_words::{Core, Width};
use texts::{push_decimal, push_hex_byte, push_hex_word};

/// The line of an instruction that begins, and those of what it reads and writes, where all its accesses are aligned.
pub fn lines_of(settled: &Settled<'_>, insn: &Insn) -> ArrayString<160>
    requires decoded { IsDecoded insn.now }
    ensures { AreAligned (plan_shown insn.now settled.now.frames settled.now.core) →
        result.bytes ≡ (spec.begun_as (entered settled.now) insn.now).lines }
{
    let mut lines = insn_line(settled, insn);
    let touched = shown_touches(settled, insn);
    push_touches(touched.as_slice(), &mut lines);
    lines
}

// The line of an instruction.
fn insn_line(settled: &Settled<'_>, insn: &Insn) -> ArrayString<160>
    requires decoded { IsDecoded insn.now }
    ensures text { result.bytes ≡ spec.insn_line (entered settled.now) insn.now }
    ensures most { array_string_len result ≤ 97 }
{
    let mut line = place_text(settled);
    push_words(settled, insn.length(), &mut line);
    push_text(insn, settled.core().pc(), &mut line);
    line.push_str("\n");
    line
}

// Its cycle, module and address.
fn place_text(settled: &Settled<'_>) -> ArrayString<160>
    ensures text { result.bytes ≡ spec.place_text (entered settled.now) }
    ensures most { array_string_len result ≤ 33 }
{
    let mut line = ArrayString::new();
    push_decimal(settled.cycle(), &mut line);
    line.push_str(" ");
    push_decimal(settled.entered().unwrap_or(0), &mut line);
    line.push_str(" ");
    push_hex_word(settled.core().pc(), &mut line);
    line.push_str(": ");
    line
}

// Appends one to three words at PC, each with a space after it.
fn push_words(settled: &Settled<'_>, count: u16, line: &mut ArrayString<160>)
    requires room { array_string_len line.old ≤ 33 }
    ensures text { line.new.bytes ≡ line.old.bytes ++ spec.words_text settled.now count }
    ensures most { array_string_len line.new ≤ array_string_len line.old + 15 }
{
    let (first, second, third) = settled.words();
    push_word(first, line);
    if count > 1 {
        push_word(second, line);
    }
    if count > 2 {
        push_word(third, line);
    }
}

fn push_word(word: u16, line: &mut ArrayString<160>)
    requires room { array_string_len line.old + 5 ≤ 160 }
    ensures text { line.new.bytes ≡ line.old.bytes ++ spec.word_text word }
    ensures length { array_string_len line.new ≡ array_string_len line.old + 5 }
{
    push_hex_word(word, line);
    line.push_str(" ");
}

// Appends the text of an instruction at an address.
fn push_text(insn: &Insn, at: u16, line: &mut ArrayString<160>)
    requires decoded { IsDecoded insn.now }
    requires room { array_string_len line.old ≤ 48 }
    ensures text { line.new.bytes ≡ line.old.bytes ++ insn_text insn.now at }
    ensures most { array_string_len line.new ≤ array_string_len line.old + 48 }
{
    let mut text = ArrayString::<48>::new();
    show(insn, at, &mut text);
    line.push_str(text.as_str());
}

// Appends a line for each of these.
fn push_touches(touches: &[Touch], lines: &mut ArrayString<160>)
    requires room { array_string_len lines.old + 18 * length touches.now ≤ 160 }
    ensures { lines.new.bytes ≡ lines.old.bytes ++ flat_map spec.touch_line touches.now }
{
    for touch in touches {
        push_touch(touch, lines);
    }
}

fn push_touch(touch: &Touch, lines: &mut ArrayString<160>)
    requires room { array_string_len lines.old + 18 ≤ 160 }
    ensures text { lines.new.bytes ≡ lines.old.bytes ++ spec.touch_line touch.now }
    ensures most { array_string_len lines.new ≤ array_string_len lines.old + 18 }
{
    lines.push_str(label_of(touch.is_write));
    push_hex_word(touch.addr, lines);
    lines.push_str(" ");
    push_value(touch.width, touch.value, lines);
    lines.push_str("\n");
}

fn label_of(is_write: bool) -> &'static str
    ensures label { result.now ≡ spec.label_of is_write }
    ensures most { length result.now ≤ 8 }
{
    if is_write { "  write " } else { "  read " }
}

// Appends a value, in two digits for a byte and four for a word.
fn push_value(width: Width, value: u16, lines: &mut ArrayString<160>)
    requires room { array_string_len lines.old + 4 ≤ 160 }
    ensures text { lines.new.bytes ≡ lines.old.bytes ++ spec.value_text width value }
    ensures most { array_string_len lines.new ≤ array_string_len lines.old + 4 }
{
    let [low, _] = value.to_le_bytes();
    match width {
        Width::Byte => push_hex_byte(low, lines),
        Width::Word => push_hex_word(value, lines),
    }
}

/// The line of the registers that changed, or nothing where none did.
pub fn registers_line(old: &Core, new: &Core) -> ArrayString<176>
    ensures { result.bytes ≡ registers_line old.now new.now }
{
    let mut text = ArrayString::<160>::new();
    for n in 0..16u8 {
        push_register(old, new, n, &mut text);
    }
    line_if(&text)
}

// A line of a text, where there is one.
fn line_if(text: &ArrayString<160>) -> ArrayString<176>
    ensures { result.bytes ≡ line_if text.now.bytes }
{
    let mut line = ArrayString::new();
    if !text.is_empty() {
        line.push_str(" ");
        line.push_str(text.as_str());
        line.push_str("\n");
    }
    line
}

// Appends a register that changed.
fn push_register(old: &Core, new: &Core, n: u8, text: &mut ArrayString<160>)
    requires number { n < 16 }
    requires room { array_string_len text.old ≤ 150 }
    ensures text { text.new.bytes ≡ text.old.bytes ++ register_text old.now new.now n }
    ensures most { array_string_len text.new ≤ array_string_len text.old + 10 }
{
    if old.get(n) == new.get(n) {
        return;
    }
    text.push_str(" r");
    push_decimal(n, text);
    text.push_str("=");
    push_hex_word(new.get(n), text);
}
