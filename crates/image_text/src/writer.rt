//! Writing an image's text.

ghost use Rattle.std.specs.Prelude.{◌≡◌, ℕ, ◌+◌, ◌*◌, ◌<◌, ◌≤◌, ◌++◌, ◌∷◌, [], List, length, drop, is_some, IfOk, OnOk};
ghost use Rattle.image_text.specs.declared.numbers.TheConstants.{FIRST_ROW, ROW_COUNT};
ghost use Rattle.mod_layout.specs.Table.{module_of};
ghost use Rattle.texts.specs.Hexadecimals.{hex_word};
ghost use Rattle.image_text.specs.Image.{AreNumbered};
ghost use Rattle.image_text.specs.ImageText.{line_before, first_line, key_line, handler_line, count_line, section_words, module_line, row_line, row_text, rows_text, count_text, modules_text, image_text};

use crate::Image;
use crate::numbers::FIRST_ROW;
use crate::reader::is_zero;
use mod_layout::{Module, ModuleTable, Section};
use std::alloc::{AllocError, Global};
use texts::{decimal, hex_key};

/// The text of an image.
pub fn write(alloc: Global, image: &Image) -> Result<Vec<u8>, AllocError>
    ensures text { IfOk result (λ text. text.items ≡ image_text image.now) }
{
    let mut text = Vec::new(alloc);
    let room = image.table.room();
    put_first(&mut text, room)?;
    put_key(&mut text, &image.node_key)?;
    put_handler(&mut text, image.handler_sp)?;
    put_count(&mut text, room, &image.table)?;
    put_modules(&mut text, &image.table)?;
    put_rows(&mut text, &image.memory)?;
    text.extend_from_slice(b"end\n")?;
    Ok(text)
}

fn put_first(text: &mut Vec<u8>, room: u16) -> Result<(), AllocError>
    ensures { OnOk result (text.new.items ≡ text.old.items ++ line_before (first_line room) []) }
{
    if room == 8 {
        text.extend_from_slice(b"sancus-image 1\n")?;
    } else {
        text.extend_from_slice(b"sancus-image 2\n")?;
    }
    Ok(())
}

fn put_key(text: &mut Vec<u8>, key: &[u8; 16]) -> Result<(), AllocError>
    ensures { OnOk result (text.new.items ≡ text.old.items ++ line_before (key_line key.now) []) }
{
    text.extend_from_slice(b"key ")?;
    text.extend_from_slice(hex_key(key).as_str().as_bytes())?;
    text.extend_from_slice(b"\n")?;
    Ok(())
}

fn put_handler(text: &mut Vec<u8>, handler_sp: u16) -> Result<(), AllocError>
    ensures { OnOk result (text.new.items ≡ text.old.items ++ line_before (handler_line handler_sp) []) }
{
    text.extend_from_slice(b"handler ")?;
    put_word(text, handler_sp)?;
    text.extend_from_slice(b"\n")?;
    Ok(())
}

// In version 2 alone, how many modules follow.
fn put_count(text: &mut Vec<u8>, room: u16, table: &ModuleTable) -> Result<(), AllocError>
    requires numbered { AreNumbered 1 table.now.modules }
    requires few { length table.now.modules ≤ 32 }
    ensures { OnOk result (text.new.items ≡ text.old.items ++ count_text room (length table.now.modules) []) }
{
    if room != 8 {
        text.extend_from_slice(b"modules ")?;
        text.extend_from_slice(decimal(u64::from(count(table))).as_str().as_bytes())?;
        text.extend_from_slice(b"\n")?;
    }
    Ok(())
}

// How many modules there are.
fn count(table: &ModuleTable) -> u16
    requires numbered { AreNumbered 1 table.now.modules }
    requires few { length table.now.modules ≤ 32 }
    ensures { result ≡ length table.now.modules }
{
    let mut count = 0;
    while is_held(table, count + 1) {
        count += 1;
    }
    count
}

fn is_held(table: &ModuleTable, id: u16) -> bool
    ensures { result ≡ is_some (module_of id table.now) }
{
    table.get(id).is_some()
}

// A line for each module, in the order of their ids.
fn put_modules(text: &mut Vec<u8>, table: &ModuleTable) -> Result<(), AllocError>
    requires numbered { AreNumbered 1 table.now.modules }
    requires few { length table.now.modules ≤ 32 }
    ensures { OnOk result ((rest : List ℕ) →
        text.new.items ++ rest ≡ text.old.items ++ modules_text table.now.modules rest) }
{
    let mut index = 0;
    while let Some(module) = table.get(index + 1) {
        put_module(text, *module)?;
        index += 1;
    }
    Ok(())
}

fn put_module(text: &mut Vec<u8>, module: Module) -> Result<(), AllocError>
    ensures { OnOk result (text.new.items ≡ text.old.items ++ line_before (module_line «module») []) }
{
    text.extend_from_slice(b"module ")?;
    put_word(text, module.vendor)?;
    text.extend_from_slice(b" ")?;
    put_section(text, module.text)?;
    text.extend_from_slice(b" ")?;
    put_section(text, module.ram)?;
    text.extend_from_slice(b"\n")?;
    Ok(())
}

fn put_section(text: &mut Vec<u8>, section: Section) -> Result<(), AllocError>
    ensures { OnOk result (text.new.items ≡ text.old.items ++ section_words section) }
{
    put_word(text, section.start)?;
    text.extend_from_slice(b" ")?;
    put_word(text, section.end)?;
    Ok(())
}

// A line for each row from the first on that is not all zeros.
fn put_rows(text: &mut Vec<u8>, memory: &[u8]) -> Result<(), AllocError>
    requires { length memory.now ≡ 65536 }
    ensures { OnOk result ((rest : List ℕ) →
        text.new.items ++ rest ≡ text.old.items ++ rows_text ROW_COUNT FIRST_ROW (drop FIRST_ROW memory.now) rest) }
{
    for row in usize::from(FIRST_ROW) / 16..4096 {
        put_row(text, (16 * row) as u16, &memory[16 * row..16 * row + 16])?;
    }
    Ok(())
}

fn put_row(text: &mut Vec<u8>, at: u16, row: &[u8]) -> Result<(), AllocError>
    requires { length row.now ≡ 16 }
    ensures { OnOk result (text.new.items ≡ text.old.items ++ row_text at row.now []) }
{
    if is_zero(row) {
        return Ok(());
    }
    text.extend_from_slice(b"at ")?;
    put_word(text, at)?;
    text.extend_from_slice(b" ")?;
    text.extend_from_slice(hex_key(sixteen(row)).as_str().as_bytes())?;
    text.extend_from_slice(b"\n")?;
    Ok(())
}

// A row as an array.
fn sixteen(row: &[u8]) -> &[u8; 16]
    requires { length row.now ≡ 16 }
    ensures { result.now ≡ row.now }
{
    match row.try_into() {
        Ok(row) => row,
        Err(_) => unreachable!(),
    }
}

// A word as four digits.
fn put_word(text: &mut Vec<u8>, word: u16) -> Result<(), AllocError>
    ensures { OnOk result (text.new.items ≡ text.old.items ++ hex_word word) }
{
    text.extend_from_slice(texts::hex_word(word).as_str().as_bytes())
}
