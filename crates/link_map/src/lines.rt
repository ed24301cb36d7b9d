//! The lines of a map.

ghost use Rattle.std.specs.Prelude.{◌≡◌, ◌++◌, [], OnOk, map};
ghost use Rattle.link_map.specs.Lines.{line, address_text, name_shown};
ghost use Rattle.link_map.specs.internal.Values.{piece_text};

use cli_files::shown_byte;
use std::alloc::{AllocError, Global};
use texts::{decimal, hex_word};

/// A word of a line.
#[derive(Clone, Copy)]
pub enum Piece<'a> {
    /// A word as it stands.
    Word(&'a [u8]),
    /// A number in decimal.
    Number(u64),
    /// An address in four hexadecimal digits, or more where it needs them.
    Address(u64),
    /// A name, with `?` for each byte that is no visible character.
    Name(&'a [u8]),
}

/// The lines so far.
#[derive(Drop)]
pub struct MapText {
    pub alloc: Global,
    pub text: Vec<u8>,
}

impl MapText {
    /// No lines.
    pub fn new(alloc: Global) -> Self
        ensures { result.text.items ≡ [] }
    {
        MapText {
            alloc,
            text: Vec::new(alloc),
        }
    }

    /// Adds these bytes.
    pub fn put(&mut self, bytes: &[u8]) -> Result<(), AllocError>
        ensures { OnOk result (self.new.text.items ≡ self.old.text.items ++ bytes.now) }
    {
        self.text.extend_from_slice(bytes)?;
        Ok(())
    }

    fn put_address(&mut self, at: u64) -> Result<(), AllocError>
        ensures { OnOk result (self.new.text.items ≡ self.old.text.items ++ address_text at) }
    {
        if at < 65536 {
            return self.put(hex_word(at as u16).as_str().as_bytes());
        }
        let digits = format!(in self.alloc; "{at:x}")?;
        self.put(digits.as_str().as_bytes())
    }

    fn put_name(&mut self, name: &[u8]) -> Result<(), AllocError>
        ensures { OnOk result (self.new.text.items ≡ self.old.text.items ++ name_shown name.now) }
    {
        for byte in name {
            self.text.push(shown_byte(*byte))?;
        }
        Ok(())
    }

    fn put_piece(&mut self, piece: Piece<'_>) -> Result<(), AllocError>
        ensures { OnOk result (self.new.text.items ≡ self.old.text.items ++ piece_text piece.entry) }
    {
        match piece {
            Piece::Word(word) => self.put(word),
            Piece::Number(number) => self.put(decimal(number).as_str().as_bytes()),
            Piece::Address(at) => self.put_address(at),
            Piece::Name(name) => self.put_name(name),
        }
    }

    /// Adds a line: the first word, and each of the others after a blank.
    pub fn put_line(&mut self, first: &[u8], words: &[Piece<'_>]) -> Result<(), AllocError>
        ensures { OnOk result (self.new.text.items ≡ self.old.text.items ++ line first.now (map piece_text words.now)) }
    {
        self.put(first)?;
        for word in words {
            self.put(b" ")?;
            self.put_piece(*word)?;
        }
        self.put(b"\n")?;
        Ok(())
    }
}
