//! Reading an image's text, line by line.

ghost use Rattle.std.specs.Prelude.{◌≡◌, ◌⊎◌, ℕ, ◌+◌, ◌-◌, ◌%◌, ◌<◌, ◌≤◌, ◌++◌, length, slice_index, replicate, [], Option, Some, true, IfOk, IfErr, OnOk};
ghost use Rattle.texts.specs.Lines.{ended_lines};
ghost use Rattle.image_text.specs.ImageText.{first_line, key_line, handler_line, is_zero as is_zero_lem, image_text};
ghost use Rattle.image_text.specs.Image.{IsImage};
ghost use Rattle.image_text.specs.Refusal.{first_refusal, key_refusal, handler_refusal, count_refusal, modules_refusal, rows_refusal, is_row as is_row_lem, one_less as one_less_lem, refusal_of};
ghost use Rattle.image_text.specs.Reading.{Reads};
ghost use Rattle.image_text.specs.internal.Reading.{on, Passed, PassedCount, PassedModules, AddsModule, NextRow, PassedMemory, due_next};
ghost use Rattle.image_text.specs.declared.numbers.TheConstants.{BEFORE_ROWS, FIRST_ROW};
ghost use Rattle.mod_layout.specs.Table.{empty_table};
ghost use Rattle.mod_layout.specs.Tables.{IsTable};

use crate::forms::{HANDLER, KEY, MODULE, ROW, digits_word, formed, section_at, sixteen_at};
use crate::lines::Lines;
use crate::numbers::{BEFORE_ROWS, FIRST_ROW, announced_count, other_version};
use crate::{Image, ImageFault};
use mod_layout::ModuleTable;
use std::alloc::{AllocError, Global};

// The room of the table that the version of the first line says.
pub(crate) fn read_version(lines: &mut Lines<'_>) -> Result<u16, ImageFault>
    ensures room { IfOk result (λ room. (room ≡ 8) ⊎ (room ≡ 32)) }
    ensures passed { IfOk result (λ room.
        Passed (first_line room) first_refusal (key_refusal room) lines.old lines.new) }
    ensures refused { IfErr result (λ fault. on lines.old first_refusal ≡ Some fault) }
{
    let line = lines.next()?;
    if line.text == b"sancus-image 1".as_slice() {
        return Ok(8);
    }
    if line.text == b"sancus-image 2".as_slice() {
        return Ok(32);
    }
    Err(other_version(line))
}

pub(crate) fn read_key(lines: &mut Lines<'_>) -> Result<[u8; 16], ImageFault>
    ensures sixteen { IfOk result (λ key. length key ≡ 16) }
    ensures bytes { IfOk result (λ key. (n : ℕ) → slice_index key n < 256) }
    ensures passed { IfOk result (λ key. (room : ℕ) →
        Passed (key_line key) (key_refusal room) (handler_refusal room) lines.old lines.new) }
    ensures refused { IfErr result (λ fault. (room : ℕ) → on lines.old (key_refusal room) ≡ Some fault) }
{
    let line = lines.next()?;
    formed(line, KEY)?;
    Ok(sixteen_at(line.text, 4))
}

pub(crate) fn read_handler(lines: &mut Lines<'_>) -> Result<u16, ImageFault>
    ensures even { IfOk result (λ sp. sp % 2 ≡ 0) }
    ensures passed { IfOk result (λ sp. (room : ℕ) →
        Passed (handler_line sp) (handler_refusal room) (count_refusal room) lines.old lines.new) }
    ensures refused { IfErr result (λ fault. (room : ℕ) → on lines.old (handler_refusal room) ≡ Some fault) }
{
    let line = lines.next()?;
    formed(line, HANDLER)?;
    let handler_sp = digits_word(line.text, 8);
    if handler_sp % 2 != 0 {
        return Err(ImageFault::Line { n: line.number });
    }
    Ok(handler_sp)
}

// How many modules follow, where the version says so.
pub(crate) fn read_count(lines: &mut Lines<'_>, room: u16) -> Result<Option<u64>, ImageFault>
    requires { (room ≡ 8) ⊎ (room ≡ 32) }
    ensures passed { IfOk result (λ due. PassedCount room due lines.old lines.new) }
    ensures refused { IfErr result (λ fault. on lines.old (count_refusal room) ≡ Some fault) }
{
    if room == 8 {
        return Ok(None);
    }
    let line = lines.next()?;
    match announced_count(line.text) {
        None => Err(ImageFault::Line { n: line.number }),
        Some(n) => Ok(Some(n)),
    }
}

// Whether the next line should be a module's: in version 2 so many are due, in version 1 its form tells.
fn is_due(lines: &Lines<'_>, left: Option<u64>) -> bool
    ensures { result ≡ due_next left (ended_lines lines.now.rest) }
{
    match left {
        None => lines.next_has_form(MODULE),
        Some(n) => n != 0,
    }
}

fn one_less(left: Option<u64>) -> Option<u64>
    ensures { result ≡ one_less_lem left }
{
    match left {
        None => None,
        Some(n) => Some(n.saturating_sub(1)),
    }
}

// Reads a module's line, and adds the module, whose id is to be this one.
fn add_module(lines: &mut Lines<'_>, table: &mut ModuleTable, module: u64) -> Result<(), ImageFault>
    requires { «module» ≡ table.old.given + 1 }
    ensures added { OnOk result (AddsModule lines.old lines.new table.old table.new) }
    ensures refused { IfErr result (λ fault. (left : Option ℕ) → due_next left (ended_lines lines.old.rest) ≡ true →
        on lines.old (modules_refusal table.old left) ≡ Some fault) }
    ensures table { OnOk result (IsTable table.new) }
{
    let line = lines.next()?;
    formed(line, MODULE)?;
    let vendor = digits_word(line.text, 7);
    let text = section_at(line.text, 12);
    let ram = section_at(line.text, 22);
    match table.add(vendor, text, ram) {
        Ok(_) => Ok(()),
        Err(fault) => Err(ImageFault::Table { module, fault }),
    }
}

pub(crate) fn read_modules(
    lines: &mut Lines<'_>,
    room: u16,
    due: Option<u64>,
) -> Result<ModuleTable, ImageFault>
    requires { (room ≡ 8) ⊎ (room ≡ 32) }
    ensures passed { IfOk result (λ table. PassedModules room due table lines.old lines.new) }
    ensures refused { IfErr result (λ fault. on lines.old (modules_refusal (empty_table room) due) ≡ Some fault) }
{
    let mut table = ModuleTable::with_room(room);
    let mut left = due;
    let mut module = 1u64;
    while is_due(lines, left) {
        add_module(lines, &mut table, module)?;
        left = one_less(left);
        module += 1;
    }
    Ok(table)
}

// The zeros below the first row.
fn low_memory(alloc: Global) -> Result<Vec<u8>, ImageFault>
    ensures zeros { IfOk result (λ memory. memory.items ≡ replicate FIRST_ROW 0) }
    ensures refused { IfErr result (λ fault. fault ≡ ImageFault.NoMemory) }
{
    match vec![in alloc; 0; FIRST_ROW as usize] {
        Ok(memory) => Ok(memory),
        Err(AllocError) => Err(ImageFault::NoMemory),
    }
}

// Zeros up to an address.
fn fill(memory: &mut Vec<u8>, end: usize) -> Result<(), AllocError>
    requires { length memory.old.items ≤ end }
    ensures { OnOk result (memory.new.items ≡ memory.old.items ++ replicate (end - length memory.old.items) 0) }
{
    memory.resize(end, 0)?;
    Ok(())
}

// Zeros up to an address, and a row there.
fn grow(memory: &mut Vec<u8>, at: u16, row: &[u8]) -> Result<(), AllocError>
    requires { length memory.old.items ≤ at }
    ensures { OnOk result
        (memory.new.items ≡ (memory.old.items ++ replicate (at - length memory.old.items) 0) ++ row.now) }
{
    fill(memory, usize::from(at))?;
    memory.extend_from_slice(row)?;
    Ok(())
}

pub(crate) fn is_zero(row: &[u8]) -> bool
    ensures { result ≡ is_zero_lem row.now }
{
    row.iter().all(|b| *b == 0)
}

// A row's address is a multiple of 16, no lower than the first row's and no lower than the last, and the row is
// not all zeros.
fn is_row(last: u16, at: u16, row: &[u8]) -> bool
    ensures { result ≡ is_row_lem last at row.now }
{
    at % 16 == 0 && at >= FIRST_ROW && !is_zero(row) && at >= last
}

// Reads the next row into the memory, and gives its address; `None` at the line `end`.
fn next_row(
    lines: &mut Lines<'_>,
    last: u16,
    memory: &mut Vec<u8>,
) -> Result<Option<u16>, ImageFault>
    requires size { length memory.old.items ≡ last + 16 }
    requires even { last % 16 ≡ 0 }
    ensures row { IfOk result (λ at. NextRow last at lines.old lines.new memory.old.items memory.new.items) }
    ensures refused { IfErr result (λ fault. (fault ≡ ImageFault.NoMemory) ⊎
        (on lines.old (rows_refusal last) ≡ Some fault)) }
{
    let line = lines.next()?;
    if line.text == b"end".as_slice() {
        return Ok(None);
    }
    formed(line, ROW)?;
    let at = digits_word(line.text, 3);
    let row = sixteen_at(line.text, 8);
    if !is_row(last, at, &row) {
        return Err(ImageFault::Line { n: line.number });
    }
    if at == last {
        return Err(ImageFault::Twice { addr: at });
    }
    match grow(memory, at, &row) {
        Ok(()) => Ok(Some(at)),
        Err(AllocError) => Err(ImageFault::NoMemory),
    }
}

// The rows and the end.
pub(crate) fn read_memory(alloc: Global, lines: &mut Lines<'_>) -> Result<Vec<u8>, ImageFault>
    ensures passed { IfOk result (λ memory. PassedMemory memory.items lines.old) }
    ensures refused { IfErr result (λ fault. (fault ≡ ImageFault.NoMemory) ⊎
        (on lines.old (rows_refusal BEFORE_ROWS) ≡ Some fault)) }
{
    let mut memory = low_memory(alloc)?;
    let mut last = BEFORE_ROWS;
    while let Some(at) = next_row(lines, last, &mut memory)? {
        last = at;
    }
    lines.end()?;
    match fill(&mut memory, 65536) {
        Ok(()) => Ok(memory),
        Err(AllocError) => Err(ImageFault::NoMemory),
    }
}

/// The image whose text the bytes are.
pub fn read(alloc: Global, bytes: &[u8]) -> Result<Image, ImageFault>
    // What is read is an image, and the bytes are its text.
    ensures image { IfOk result (λ image. IsImage image) }
    ensures text { IfOk result (λ image. bytes.now ≡ image_text image) }

    // What is refused is refused by the first line that does not serve.
    ensures refused { IfErr result (λ fault. (fault ≡ ImageFault.NoMemory) ⊎ (refusal_of bytes.now ≡ Some fault)) }

    // In one word, of which the laws speak.
    ensures reads { Reads bytes.now result }
{
    let mut lines = Lines::new(bytes);
    let room = read_version(&mut lines)?;
    let node_key = read_key(&mut lines)?;
    let handler_sp = read_handler(&mut lines)?;
    let due = read_count(&mut lines, room)?;
    let table = read_modules(&mut lines, room, due)?;
    let memory = read_memory(alloc, &mut lines)?;
    Ok(Image {
        memory,
        table,
        node_key,
        handler_sp,
    })
}
