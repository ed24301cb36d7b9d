//! The lines that a script writes beside the trace.

ghost use Rattle.std.specs.Prelude.{◌≡◌, ℕ, ◌+◌, ◌*◌, ◌++◌, ◌≤◌, List, None, Some, codes};
ghost use Rattle.arrayvec.specs.ArrayString.{array_string_len};
ghost use Rattle.sm_words.specs.Words.{reg};
ghost use Rattle.texts.specs.Hexadecimals.{hex_word};
ghost use Rattle.tracer.specs.Lines.{registers_from};
ghost use Rattle.written_machine.specs.Script.{regs_text, mem_text, registers_text, refused_or, byte_text, bytes_text, mark_text, full_text, back_text, no_mark_text, last_text, not_there_text, at_cycle};
ghost use Rattle.written_machine.specs.View.{view_of};
ghost use Rattle.monitor.specs.internal.Shown.{refused_text, refusal_or};

use arrayvec::ArrayString;
use board::{Board, Hidden, View};
use mod_layout::{ModuleTable, Place};
use texts::{push_decimal, push_hex_byte, push_hex_word};

/// One line: of 256 bytes at the most, with their address.
pub type Line = ArrayString<520>;

/// A byte in a module's data.
#[derive(Clone, Copy, Debug, PartialEq, Eq)]
pub struct Refusal {
    pub addr: u16,
    pub id: u16,
}

/// The line of `regs`, on what is seen where all modules are hidden.
#[tactic(auto, unfolding(written_machine::specs::Script::regs_text))]
pub fn regs_line(view: &View<'_>) -> Line
    requires { view.now.hidden ≡ Hidden.All }
    ensures { result.bytes ≡ regs_text (view_of view.now.state view.now.hidden) }
{
    let mut line = ArrayString::new();
    line.push_str("regs ");
    push_decimal(view.cycle(), &mut line);
    line.push_str(" ");
    push_core(view, &mut line);
    line.push_str("\n");
    line
}

// Appends the registers, or the module that is active.
#[tactic(auto, unfolding(written_machine::specs::View::view_of))]
fn push_core(view: &View<'_>, out: &mut Line)
    requires hidden { view.now.hidden ≡ Hidden.All }
    requires room { array_string_len out.old ≤ 100 }
    ensures text { let v = view_of view.now.state view.now.hidden in
        out.new.bytes ≡ out.old.bytes ++ registers_text v.registers v.active }
    ensures most { array_string_len out.new ≤ array_string_len out.old + 87 }
{
    match view.active() {
        Some(id) => {
            out.push_str("inside ");
            push_decimal(id, out);
        }
        None => {
            out.push_str("outside");
            push_registers(view, out);
        }
    }
}

// Appends the sixteen registers, each after a space.
#[tactic(auto, unfolding(written_machine::specs::View::view_of))]
fn push_registers(view: &View<'_>, out: &mut Line)
    requires outside { view.now.state.active ≡ None }
    requires room { array_string_len out.old ≤ 110 }
    ensures text { out.new.bytes ≡ out.old.bytes ++ registers_from view.now.state.core 0 16 }
    ensures most { array_string_len out.new ≤ array_string_len out.old + 80 }
{
    for n in 0..16u8 {
        out.push_str(" ");
        push_hex_word(register(view, n), out);
    }
}

// A register outside.
#[tactic(auto, unfolding(written_machine::specs::View::view_of))]
fn register(view: &View<'_>, n: u8) -> u16
    requires outside { view.now.state.active ≡ None }
    ensures { result ≡ reg view.now.state.core n }
{
    view.register(n).unwrap()
}

/// The line of `mem`: `count` bytes from `addr`, or that the first of them that lies in a module's data is refused.
#[tactic(auto, unfolding(written_machine::specs::Script::mem_text))]
pub fn mem_line(view: &View<'_>, addr: u16, count: u16) -> Line
    requires few { count ≤ 256 }
    requires within { addr + count ≤ 65536 }
    ensures { result.bytes ≡ mem_text (view_of view.now.state view.now.hidden) addr count }
{
    let mut line = ArrayString::new();
    match first_refusal(view.table(), addr, count) {
        Some(refusal) => push_refusal(refusal, &mut line),
        None => push_memory(view, addr, count, &mut line),
    }
    line.push_str("\n");
    line
}

// The first of `count` bytes from `addr` that lies in a module's data.
fn first_refusal(table: &ModuleTable, addr: u16, count: u16) -> Option<Refusal>
    requires { addr + count ≤ 65536 }
    ensures { (rest : List ℕ) → refused_or table.now addr count rest ≡ refusal_or result rest }
{
    for i in 0..count {
        if let Place::Data(id) = table.at(addr + i) {
            return Some(Refusal { addr: addr + i, id });
        }
    }
    None
}

// Appends what is refused.
fn push_refusal(refusal: Refusal, out: &mut Line)
    requires { array_string_len out.old ≤ 100 }
    ensures text { out.new.bytes ≡ out.old.bytes ++ refused_text refusal }
    ensures most { array_string_len out.new ≤ array_string_len out.old + 60 }
{
    out.push_str("refused ReadData addr ");
    push_hex_word(refusal.addr, out);
    out.push_str(" module ");
    push_decimal(refusal.id, out);
}

// Appends an address and the bytes from there on.
fn push_memory(view: &View<'_>, addr: u16, count: u16, out: &mut Line)
    requires few { count ≤ 256 }
    requires within { addr + count ≤ 65536 }
    requires room { array_string_len out.old ≤ 0 }
    ensures text { let v = view_of view.now.state view.now.hidden in
        out.new.bytes ≡ out.old.bytes ++ hex_word addr ++ codes ": " ++ bytes_text v addr count }
    ensures most { array_string_len out.new ≤ array_string_len out.old + 6 + 2 * count }
{
    push_hex_word(addr, out);
    out.push_str(": ");
    for i in 0..count {
        push_seen(view.byte(addr + i), out);
    }
}

// Appends a byte, where it is seen.
fn push_seen(byte: Option<u8>, out: &mut Line)
    requires { array_string_len out.old + 2 ≤ 520 }
    ensures text { out.new.bytes ≡ out.old.bytes ++ byte_text byte }
    ensures most { array_string_len out.new ≤ array_string_len out.old + 2 }
{
    if let Some(byte) = byte {
        push_hex_byte(byte, out);
    }
}

/// The line of a mark with this number.
#[tactic(auto, unfolding(written_machine::specs::Script::mark_text))]
pub fn mark_line(k: u16, board: &Board) -> Line
    ensures { result.bytes ≡ mark_text k board.now }
{
    let mut line = ArrayString::new();
    line.push_str("mark ");
    push_decimal(k, &mut line);
    push_at(board, &mut line);
    line
}

/// The line that says that all so many marks are live.
#[tactic(auto, unfolding(written_machine::specs::Script::full_text))]
pub fn full_line(marks: u16) -> Line
    ensures { result.bytes ≡ full_text marks }
{
    let mut line = ArrayString::new();
    line.push_str("refused MarksFull ");
    push_decimal(marks, &mut line);
    line.push_str("\n");
    line
}

/// The line of a return to mark `k`.
#[tactic(auto, unfolding(written_machine::specs::Script::back_text))]
pub fn back_line(k: u16, board: &Board) -> Line
    ensures { result.bytes ≡ back_text k board.now }
{
    let mut line = ArrayString::new();
    line.push_str("back ");
    push_decimal(k, &mut line);
    push_at(board, &mut line);
    line
}

/// The line that says that there is no mark `k`.
#[tactic(auto, unfolding(written_machine::specs::Script::no_mark_text))]
pub fn no_mark_line(k: u16) -> Line
    ensures { result.bytes ≡ no_mark_text k }
{
    let mut line = ArrayString::new();
    line.push_str("refused NoMark ");
    push_decimal(k, &mut line);
    line.push_str("\n");
    line
}

/// The line of a return to an address.
#[tactic(auto, unfolding(written_machine::specs::Script::last_text))]
pub fn last_line(addr: u16, board: &Board) -> Line
    ensures { result.bytes ≡ last_text addr board.now }
{
    let mut line = ArrayString::new();
    line.push_str("last ");
    push_hex_word(addr, &mut line);
    push_at(board, &mut line);
    line
}

/// The line that says that it did not stand at an address.
#[tactic(auto, unfolding(written_machine::specs::Script::not_there_text))]
pub fn not_there_line(addr: u16) -> Line
    ensures { result.bytes ≡ not_there_text addr }
{
    let mut line = ArrayString::new();
    line.push_str("refused NotThere ");
    push_hex_word(addr, &mut line);
    line.push_str("\n");
    line
}

// Appends the number of the cycle, and the end of the line.
#[tactic(auto, unfolding(written_machine::specs::View::view_of))]
fn push_at(board: &Board, out: &mut Line)
    requires { array_string_len out.old ≤ 100 }
    ensures { out.new.bytes ≡ out.old.bytes ++ at_cycle board.now }
{
    out.push_str(" at ");
    push_decimal(board.view(Hidden::All).cycle(), out);
    out.push_str("\n");
}
