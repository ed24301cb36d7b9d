//! The instruction at an address of a text.

ghost use Rattle.std.specs.Prelude.{◌≡◌, ◌<◌, ◌≤◌, ◌+◌, ◌*◌, ◌&&◌, if◌then◌else◌, IfSome, None};
ghost use Rattle.sm_words.specs.Words.{word_at};
ghost use Rattle.insn_decode.specs.Code.{IsDecoded, insn_of};
ghost use Rattle.cpu_step.specs.Fetched.{later_word, word_in, insn_at, insn_from};
ghost use Rattle.arm_balance.specs.Met.{text_byte, met};

use insn_decode::{Insn, decode};
use mod_layout::Section;

/// The byte of the text at an address, and 0 past its end.
pub fn byte(section: Section, text: &[u8], addr: usize) -> u16
    ensures exact { result ≡ text_byte section text.now addr }
    ensures small { result < 256 }
{
    let at = addr.saturating_sub(usize::from(section.start));
    match text.get(at) {
        Some(byte) => u16::from(*byte),
        None => 0,
    }
}

/// The word of the text at an address, low byte first.
pub fn word(section: Section, text: &[u8], addr: usize) -> u16
    requires { addr < 1000000 }
    ensures exact { result ≡ word_at (text_byte section text.now) addr }
{
    byte(section, text, addr) + 256 * byte(section, text, addr + 1)
}

/// Whether word `k` of an instruction of `n` words at `pc`, if there is one, is in the text.
fn has_word(section: Section, pc: u16, n: u16, k: u16) -> bool
    ensures { result ≡ word_in section pc n k }
{
    k >= n || section.holds(usize::from(pc) + 2 * usize::from(k))
}

/// Word `k` of an instruction of `n` words at `pc`, and 0 past its last.
fn later(section: Section, text: &[u8], pc: u16, n: u16, k: u16) -> u16
    ensures { result ≡ later_word (text_byte section text.now) pc n k }
{
    if k < n {
        word(section, text, usize::from(pc) + 2 * usize::from(k))
    } else {
        0
    }
}

/// The instruction of `n` words at an address.
fn insn_there(section: Section, text: &[u8], pc: u16, n: u16) -> Option<Insn>
    ensures exact { result ≡ insn_at (text_byte section text.now) pc n }
    ensures decoded { IfSome result (λ insn. IsDecoded insn) }
{
    decode(
        word(section, text, usize::from(pc)),
        later(section, text, pc, n, 1),
        later(section, text, pc, n, 2),
    )
}

/// The instruction of `n` words at an address, where it lies wholly in the text.
fn whole(section: Section, text: &[u8], pc: u16, n: u16) -> Option<Insn>
    ensures exact { result ≡ (if word_in section pc n 1 && word_in section pc n 2
        then insn_at (text_byte section text.now) pc n else None) }
    ensures decoded { IfSome result (λ insn. IsDecoded insn) }
{
    if has_word(section, pc, n, 1) && has_word(section, pc, n, 2) {
        insn_there(section, text, pc, n)
    } else {
        None
    }
}

/// The instruction at an address, where its first word tells its length.
fn met_first(first: Option<Insn>, section: Section, text: &[u8], pc: u16) -> Option<Insn>
    ensures exact { result ≡ insn_from first (text_byte section text.now) section pc }
    ensures decoded { IfSome result (λ insn. IsDecoded insn) }
{
    match first {
        Some(insn) => whole(section, text, pc, insn.length()),
        None => None,
    }
}

/// The instruction at an address of the text, where it lies wholly in it.
#[tactic(auto, unfolding(crate::specs::Met::met))]
pub fn met(section: Section, text: &[u8], pc: u16) -> Option<Insn>
    ensures exact { result ≡ met section text.now pc }
    ensures decoded { IfSome result (λ insn. IsDecoded insn) }
{
    let first = decode(word(section, text, usize::from(pc)), 0, 0);
    met_first(first, section, text, pc)
}
