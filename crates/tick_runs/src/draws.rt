//! Numbers and texts drawn from a seed.

use std::alloc::Global;
use std::test::Fail;
use texts::{hex_byte, hex_word};

/// What numbers are drawn from: x ↦ 1664525 x + 1013904223 modulo 2^32, of which the high half is used.
#[derive(Drop)]
pub struct Draws {
    state: u32,
}

impl Draws {
    pub fn new(seed: u32) -> Draws {
        Draws { state: seed }
    }

    /// The next word.
    pub fn word(&mut self) -> u16 {
        self.state = self
            .state
            .wrapping_mul(1_664_525)
            .wrapping_add(1_013_904_223);
        (self.state / 65_536) as u16
    }

    /// A number below this one, or 0.
    pub fn below(&mut self, bound: u16) -> u16 {
        self.word() % bound.max(1)
    }
}

/// At least so many words, piece by piece.
pub fn draw_words(
    alloc: Global,
    draws: &mut Draws,
    pieces: &[&[u16]],
    count: u16,
) -> Result<Vec<u16>, Fail> {
    let mut words = Vec::new(alloc);
    let most = u16::try_from(pieces.len()).unwrap_or(u16::MAX);
    for _ in 0..count {
        let number = draws.below(most);
        match pieces.get(usize::from(number)) {
            Some([]) => words.push(draws.word())?,
            Some(piece) => words.extend_from_slice(piece)?,
            None => {}
        }
    }
    Ok(words)
}

/// Appends a row of an image's text, but none of zeros alone.
pub fn push_row(addr: u16, row: &[u16], text: &mut String) -> Result<(), Fail> {
    if row.iter().all(|word| *word == 0) {
        return Ok(());
    }
    text.push_str("at ")?;
    text.push_str(hex_word(addr).as_str())?;
    text.push_str(" ")?;
    for word in row {
        text.push_str(hex_word(word.swap_bytes()).as_str())?;
    }
    text.push_str("\n")?;
    Ok(())
}

/// Appends so many rows from this address on.
pub fn push_rows(start: u16, words: &[u16], rows: usize, text: &mut String) -> Result<(), Fail> {
    let mut addr = start;
    for row in words.chunks_exact(8).take(rows) {
        push_row(addr, row, text)?;
        addr = addr.wrapping_add(16);
    }
    Ok(())
}

/// A schedule of up to 31 entries.
pub fn draw_schedule(alloc: Global, draws: &mut Draws) -> Result<String, Fail> {
    let mut text = String::new(alloc);
    let mut cycle = 0u32;
    for _ in 0..draws.below(32) {
        cycle = cycle.saturating_add(u32::from(draws.below(30)));
        let number = draws.below(4);
        let byte = hex_byte((draws.word() % 256) as u8);
        let byte = byte.as_str();
        let entry = match draws.below(5) {
            0 | 1 => format!(in alloc; "{cycle} line {number} up\n")?,
            2 | 3 => format!(in alloc; "{cycle} line {number} down\n")?,
            _ => format!(in alloc; "{cycle} serial {byte}\n")?,
        };
        text.push_str(entry.as_str())?;
    }
    Ok(text)
}
