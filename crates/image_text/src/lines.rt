//! The lines of a text, one after another.

ghost use Rattle.std.specs.Prelude.{◌≡◌, ◌+◌, ◌<◌, ◌^◌, ◌==◌, [], length, position, IfOk, IfErr, OnOk, OnErr, Some};
ghost use Rattle.texts.specs.Lines.{ended_lines};
ghost use Rattle.image_text.specs.Refusal.{end_refusal};
ghost use Rattle.image_text.specs.internal.Reading.{ReadLine, head_has_form, on};

use crate::ImageFault;
use crate::forms::has_form;
use std::marker::Model;
use texts::split_line;

/// What is unread of a text, where each line ends with LF.
#[derive(Drop)]
pub(crate) struct Lines<'a> {
    rest: &'a [u8],
    number: u64,
    at: u64,
}

/// A line without its LF: its number, counted from 1, and its offset in the file.
#[derive(Clone, Copy)]
pub(crate) struct Line<'a> {
    pub(crate) text: &'a [u8],
    pub(crate) number: u64,
    pub(crate) at: u64,
}

impl<'a> Model for Lines<'a> {
    ghost use Rattle.std.specs.Prelude.{◌+◌, ◌<◌, ◌≤◌, ◌^◌, length};
    ghost use Rattle.image_text.specs.Refusal.{Spot};
    ghost use Rattle.image_text.specs.internal.Reading.{Unread};

    ghost Value = { Unread };

    ghost view = { λ l. record { rest = l.rest.now; spot = record { number = l.number; at = l.at } } };

    ghost invariant = { λ l. (l.number ≤ l.at + 1) × (l.at + length l.rest.now < 2 ^ 63) };
}

impl<'a> Lines<'a> {
    pub(crate) fn new(text: &'a [u8]) -> Self
        ensures { result ≡ record { rest = text.now; spot = record { number = 1; at = 0 } } }
    {
        Self {
            rest: text,
            number: 1,
            at: 0,
        }
    }

    /// Takes the next line off; `Line` where no LF is left.
    pub(crate) fn next(&mut self) -> Result<Line<'a>, ImageFault>
        ensures line { IfOk result (λ line. ReadLine self.old line.text.now self.new) }
        ensures spot { IfOk result (λ line. (line.number ≡ self.old.spot.number) × (line.at ≡ self.old.spot.at)) }
        ensures bounded { IfOk result (λ line. line.at + length line.text.now < 2 ^ 63) }
        ensures missing { IfErr result (λ fault. fault ≡ ImageFault.Line self.old.spot.number) }
        ensures none { OnErr result (ended_lines self.old.rest ≡ []) }
        ensures same { OnErr result (self.new ≡ self.old) }
    {
        let rest = self.rest;
        let number = self.number;
        let at = self.at;
        match split_line(rest) {
            None => Err(ImageFault::Line { n: number }),
            Some((text, behind)) => {
                self.rest = behind;
                self.number = number + 1;
                self.at = at + text.len() as u64 + 1;
                Ok(Line { text, number, at })
            }
        }
    }
}

impl Lines<'_> {
    /// Whether there is a next line, and has this form.
    pub(crate) fn next_has_form(&self, form: &[u8]) -> bool
        ensures { result ≡ head_has_form form.now (ended_lines self.now.rest) }
    {
        let rest = self.rest;
        match split_line(rest) {
            None => false,
            Some((line, _)) => has_form(form, line),
        }
    }

    /// Nothing stands behind the line `end`.
    pub(crate) fn end(&self) -> Result<(), ImageFault>
        ensures nothing { OnOk result (self.now.rest ≡ []) }
        ensures more { IfErr result (λ fault. on self.now end_refusal ≡ Some fault) }
    {
        if self.rest.is_empty() {
            return Ok(());
        }
        Err(ImageFault::Line { n: self.number })
    }
}
