//! `dis IMAGE START END`: the instructions of an image, one a line.
ghost use Rattle.std.specs.Prelude.{◌≡◌, ◌≤◌, ◌+◌, ◌%◌, ◌++◌, IfSome, codes};
ghost use Rattle.arrayvec.specs.ArrayString.{array_string_len};
ghost use Rattle.std.specs.Prelude.{slice_index};
ghost use Rattle.sm_words.specs.Words.{word_at};
ghost use Rattle.insn_decode.specs.Code.{IsDecoded, length_or_one};
ghost use Rattle.texts.specs.Hexadecimals.{hex_word};
ghost use Rattle.sm_io.specs.Sink.{Puts};
ghost use Rattle.sm_cli.specs.DisCommand as spec;
ghost use Rattle.sm_cli.specs.DisCommand.{dis_command, read_dis, listing};

use arrayvec::ArrayString;
use cli_calls::{Answering, Reading};
use cli_files::{Refused, Status, load, status_after};
use image_text::Image;
use insn_decode::{Insn, decode, show};
use sm_io::{Failed, Files, Sink, put_all};
use std::alloc::{AllocError, Global};
use texts::{push_hex_word, read_hex_word};

/// The arguments: the instructions from `start`, which is even, to below `end`.
#[derive(Clone, Copy)]
pub struct DisCommand<'a> {
    pub image: &'a str,
    pub start: u16,
    pub end: u16,
}

impl<'a> Reading<'a> for DisCommand<'a> {
    ghost asks = { read_dis };

    fn read_values(_alloc: Global, values: &[&'a str]) -> Result<Option<Self>, AllocError> {
        if values.len() != 3 {
            return Ok(None);
        }
        let Some(start) = read_hex_word(values[1].as_bytes()) else {
            return Ok(None);
        };
        let Some(end) = read_hex_word(values[2].as_bytes()) else {
            return Ok(None);
        };
        if start % 2 == 0 && start <= end {
            Ok(Some(DisCommand {
                image: values[0],
                start,
                end,
            }))
        } else {
            Ok(None)
        }
    }
}

impl Answering for DisCommand<'_> {
    ghost asked = { λ c. dis_command c.image.now c.start c.end };

    ghost bounds = { λ c. c.start % 2 ≡ 0 };

    fn answer<F: Files, O: Sink>(
        &self,
        alloc: Global,
        files: &mut F,
        out: &mut O,
    ) -> Result<Status, Refused<'_>> {
        let image = match load::<Image, F>(alloc, self.image, files) {
            Ok(image) => image,
            Err(refused) => return Err(refused),
        };
        let memory = image.memory.as_slice();
        Ok(status_after(put_listing(memory, self.start, self.end, out)))
    }
}

// Puts a line for each instruction from an address on while it is below the end.
fn put_listing<O: Sink>(memory: &[u8], start: u16, end: u16, out: &mut O) -> Result<(), Failed>
    ensures { Puts O.taken O.faults O.sure out.old out.new (listing memory.now start end) result }
{
    let mut at = u32::from(start);
    while at < u32::from(end) {
        let insn = dis_insn(memory, at as u16);
        let line = line_at(memory, at as u16, insn);
        match put_all(out, line.as_str().as_bytes()) {
            Ok(()) => {}
            Err(Failed) => return Err(Failed),
        }
        at += 2 * u32::from(length_or_one(insn));
    }
    Ok(())
}

// The instruction at an address, where its words do not go past the last address.
#[tactic(auto, unfolding(crate::specs::DisCommand::dis_insn))]
fn dis_insn(memory: &[u8], at: u16) -> Option<Insn>
    ensures exact { result ≡ spec.dis_insn memory.now at }
    ensures decoded { IfSome result (λ insn. IsDecoded insn) }
{
    let at = usize::from(at);
    let first = dis_word(memory, at);
    if at + 2 * usize::from(insn_decode::length(first)) <= 65536 {
        decode(first, dis_word(memory, at + 2), dis_word(memory, at + 4))
    } else {
        None
    }
}

fn length_or_one(insn: Option<Insn>) -> u16
    ensures exact { result ≡ length_or_one insn }
    ensures least { 1 ≤ result }
    ensures most { result ≤ 3 }
{
    match insn {
        Some(insn) => insn.length(),
        None => 1,
    }
}

// The word at an address, of which bytes past the last address are 0.
fn dis_word(memory: &[u8], at: usize) -> u16
    requires { at ≤ 65540 }
    ensures { result ≡ word_at (slice_index memory.now) at }
{
    let low = memory.get(at).copied().unwrap_or(0);
    let high = memory.get(at + 1).copied().unwrap_or(0);
    u16::from(low) + 256 * u16::from(high)
}

// The line of an instruction, or of a word that is none.
#[tactic(auto, unfolding(crate::specs::DisCommand::line_at))]
fn line_at(memory: &[u8], at: u16, insn: Option<Insn>) -> ArrayString<80>
    requires here { insn ≡ spec.dis_insn memory.now at }
    requires decoded { IfSome insn (λ insn. IsDecoded insn) }
    ensures { result.bytes ≡ spec.line_at memory.now at }
{
    let mut line = ArrayString::new();
    push_hex_word(at, &mut line);
    line.push_str(": ");
    push_words(memory, usize::from(at), length_or_one(insn), &mut line);
    push_text(insn, at, &mut line);
    line.push_str("\n");
    line
}

// Appends an instruction's text, or `?`.
fn push_text(insn: Option<Insn>, at: u16, line: &mut ArrayString<80>)
    requires decoded { IfSome insn (λ insn. IsDecoded insn) }
    requires room { array_string_len line.old ≤ 21 }
    ensures text { line.new.bytes ≡ line.old.bytes ++ spec.dis_text insn at }
    ensures most { array_string_len line.new ≤ array_string_len line.old + 48 }
{
    match insn {
        Some(insn) => {
            let mut text = ArrayString::<48>::new();
            show(&insn, at, &mut text);
            line.push_str(text.as_str());
        }
        None => line.push_str("?"),
    }
}

// Appends one to three words, each with a space after it.
fn push_words(memory: &[u8], at: usize, count: u16, line: &mut ArrayString<80>)
    requires low { at ≤ 65535 }
    requires room { array_string_len line.old ≤ 6 }
    ensures text { line.new.bytes ≡ line.old.bytes ++ spec.memory_words_text memory.now at count }
    ensures most { array_string_len line.new ≤ array_string_len line.old + 15 }
{
    push_word(dis_word(memory, at), line);
    if count > 1 {
        push_word(dis_word(memory, at + 2), line);
    }
    if count > 2 {
        push_word(dis_word(memory, at + 4), line);
    }
}

fn push_word(word: u16, line: &mut ArrayString<80>)
    requires room { array_string_len line.old + 5 ≤ 80 }
    ensures text { line.new.bytes ≡ line.old.bytes ++ (hex_word word ++ codes " ") }
    ensures length { array_string_len line.new ≡ array_string_len line.old + 5 }
{
    push_hex_word(word, line);
    line.push_str(" ");
}
