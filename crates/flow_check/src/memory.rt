//! The two sections: a module's text, and what is known of its data.

ghost use Rattle.std.specs.Prelude.{◌≡◌, ◌<◌, ◌&&◌, slice_set};
ghost use Rattle.sm_words.specs.Words.{nth};
ghost use Rattle.flow_rule.specs.Does.{may_reach, word_no, read_at, read_val, write_at, write_val};

use crate::domain::{blurred_both, half, narrow};
use arm_balance::{byte, word};
use flow_rule::{Reach, Val};
use mod_layout::Module;
use pc_access::{Kind, is_misaligned};
use sm_words::Width;

/// Whether the module may do this access.
pub fn may_reach(module: &Module, kind: Kind, width: Width, addr: u16) -> bool
    ensures { result ≡ may_reach module.now kind width addr }
{
    let here = usize::from(addr);
    match kind {
        Kind::Read => {
            !is_misaligned(width, addr) && (module.text.holds(here) || module.ram.holds(here))
        }
        Kind::Write => !is_misaligned(width, addr) && module.ram.holds(here),
        Kind::Fetch => false,
    }
}

/// The number of the data's word with this address.
pub fn word_number(module: &Module, addr: u16) -> usize
    ensures { result ≡ word_no module.now addr }
{
    usize::from(addr.saturating_sub(module.ram.start)) / 2
}

/// What is known of a word of the data.
pub fn known(words: &[Val], n: usize) -> Val
    ensures { result ≡ nth n words.now Val.Secret }
{
    match words.get(n) {
        Some(value) => *value,
        None => Val::Secret,
    }
}

/// What a read at an address gives.
fn read_at(module: &Module, text: &[u8], words: &[Val], width: Width, addr: u16) -> Val
    ensures { result ≡ read_at module.now text.now words.now width addr }
{
    let here = usize::from(addr);
    match width {
        Width::Word => {
            if module.text.holds(here) {
                Val::Known(word(module.text, text, here))
            } else {
                known(words, word_number(module, addr))
            }
        }
        Width::Byte => {
            if module.text.holds(here) {
                Val::Known(byte(module.text, text, here))
            } else {
                half(addr, known(words, word_number(module, addr)))
            }
        }
    }
}

/// What a read gives.
pub fn read(module: &Module, text: &[u8], words: &[Val], reach: &Reach) -> Val
    ensures { result ≡ read_val module.now text.now words.now reach.now }
{
    match reach.addr {
        Val::Known(addr) => read_at(module, text, words, reach.width, addr),
        Val::Away | Val::Public | Val::Secret => Val::Secret,
    }
}

/// Writes a word of the data by its number, where something is known of it.
pub fn put_word(words: &mut [Val], n: usize, value: Val)
    ensures { words.new ≡ slice_set words.old n value }
{
    if n < words.len() {
        words[n] = value;
    }
}

/// Writes a value at an address.
fn write_at(module: &Module, words: &mut [Val], width: Width, addr: u16, value: Val)
    ensures { words.new ≡ write_at module.now words.old width addr value }
{
    let n = word_number(module, addr);
    match width {
        Width::Word => put_word(words, n, narrow(Width::Word, value)),
        Width::Byte => {
            let old = known(words, n);
            put_word(words, n, blurred_both(old, value));
        }
    }
}

/// Writes a value.
pub fn write(module: &Module, words: &mut [Val], reach: &Reach, value: Val)
    ensures { words.new ≡ write_val module.now words.old reach.now value }
{
    if let Val::Known(addr) = reach.addr {
        write_at(module, words, reach.width, addr, value);
    }
}
