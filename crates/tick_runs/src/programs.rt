//! Images of random programs.

use crate::draws::{Draws, draw_words, push_row, push_rows};
use std::alloc::Global;
use std::test::Fail;

/// What the outside and the handlers are made of. An empty piece is a random word.
fn outside_pieces() -> &'static [&'static [u16]] {
    &[
        // The stack pointer and GIE.
        &[0x4031, 0x0600, 0xd232],
        // The timer runs and rings, with limit 20, and later with limit 3.
        &[0x40b2, 0x0014, 0x0164, 0x40f2, 0x0003, 0x0160, 0xd232],
        &[0x40b2, 0x0003, 0x0164, 0x40f2, 0x0003, 0x0160],
        // The serial device rings, sends, and its byte is read.
        &[0x40f2, 0x0001, 0x0070],
        &[0x40f2, 0x0041, 0x0071],
        &[0x4256, 0x0071],
        // Sleep, with and without GIE.
        &[0xd032, 0x0018],
        &[0xd032, 0x0018],
        &[0xd032, 0x0010],
        &[0xc232],
        &[0xd232],
        // Calls of module 1 and 2, to come back to here by R7 or by the stack.
        &[0x4007, 0x4030, 0x0300],
        &[0x4007, 0x4030, 0x0360],
        &[0x4037, 0x0200, 0x4030, 0x0300],
        &[0x12b0, 0x0300],
        // Sums, moves to and from memory, the stack.
        &[0x5035, 0x1234],
        &[0x4582, 0x0440],
        &[0x4216, 0x0440],
        &[0x5392, 0x0442],
        &[0x1205, 0x4136],
        &[0x4303],
        &[0x4303],
        &[0x4303],
        // Jumps, and the handler's return.
        &[0x3c01, 0x4303],
        &[0x2402, 0x4303, 0x4303],
        &[0x3ffb],
        &[0x1300],
        // The unit's instructions, and any word.
        &[0x1386],
        &[0x1381],
        &[],
    ]
}

/// What module 1 is made of.
fn first_pieces() -> &'static [&'static [u16]] {
    &[
        &[0x4215, 0x0400],
        &[0x5392, 0x0400],
        &[0x5582, 0x0402],
        &[0x9382, 0x0400, 0x2402, 0x4303, 0x4303],
        &[0x4303],
        &[0x4303],
        &[0x5306],
        &[0x43d2, 0x0041],
        &[0x1385],
        &[0xc232],
        // It leaves: to where it was called from, to the outside, to the other module.
        &[0x4700],
        &[0x4700],
        &[0x4030, 0x0210],
        &[0x4030, 0x0360],
        // What is refused there: the other module's data, RETI.
        &[0x4216, 0x0420],
        &[0x1300],
    ]
}

/// What module 2 is made of.
fn second_pieces() -> &'static [&'static [u16]] {
    &[
        &[0x4216, 0x0420],
        &[0x5392, 0x0422],
        &[0x4303],
        &[0x4303],
        &[0x4700],
        &[0x4030, 0x0220],
        &[0x4030, 0x0300],
        &[],
    ]
}

/// What handlers are made of.
fn handler_pieces() -> &'static [&'static [u16]] {
    &[
        &[0x1300],
        &[0x1300],
        &[0x4303],
        &[0x5392, 0x0442],
        &[0x43c2, 0x0160],
        &[0x40f2, 0x0003, 0x0160],
        &[0xc0b1, 0x0010, 0x0000],
        &[0x4256, 0x0071],
    ]
}

/// The vectors' words: two handlers, an entry, an address inside a module.
fn handlers() -> &'static [&'static [u16]] {
    &[
        &[0x0500],
        &[0x0500],
        &[0x0500],
        &[0x0508],
        &[0x0508],
        &[0x0508],
        &[0x0360],
        &[0x0304],
    ]
}

/// What stands where a section ends: a jump to the outside's second row.
const BACK: [u16; 8] = [0x4030, 0x0210, 0, 0, 0, 0, 0, 0];

/// What stands where the handlers end.
const RETURN: [u16; 8] = [0x1300, 0, 0, 0, 0, 0, 0, 0];

/// The table, and the outside's first row: the stack pointer, the lines' enable bits, R7, and GIE.
const HEAD: &str = "\
sancus-image 1
key 000102030405060708090a0b0c0d0e0f
handler 0600
module 0007 0300 0340 0400 0410
module 0009 0360 0380 0420 0430
at 0200 31400006f2400f0040003740100232d2
";

/// The text of a random image with two modules.
pub fn draw_image(alloc: Global, draws: &mut Draws) -> Result<String, Fail> {
    let mut text = String::from_str(alloc, HEAD)?;
    let outside = draw_words(alloc, draws, outside_pieces(), 96)?;
    push_rows(0x0210, outside.as_slice(), 12, &mut text)?;
    push_row(0x02d0, &BACK, &mut text)?;
    let first = draw_words(alloc, draws, first_pieces(), 32)?;
    push_rows(0x0300, first.as_slice(), 4, &mut text)?;
    push_row(0x0340, &BACK, &mut text)?;
    let second = draw_words(alloc, draws, second_pieces(), 16)?;
    push_rows(0x0360, second.as_slice(), 2, &mut text)?;
    push_row(0x0380, &BACK, &mut text)?;
    let handler = draw_words(alloc, draws, handler_pieces(), 16)?;
    push_rows(0x0500, handler.as_slice(), 2, &mut text)?;
    push_row(0x0520, &RETURN, &mut text)?;
    let vectors = draw_words(alloc, draws, handlers(), 16)?;
    push_rows(0xffe0, vectors.as_slice(), 1, &mut text)?;
    text.push_str("at fff0 00000000000000000000000000000002\nend\n")?;
    Ok(text)
}
