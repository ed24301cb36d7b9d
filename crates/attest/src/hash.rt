//! Hashes of what stands in memory, page by page.

ghost use Rattle.std.specs.Prelude.{◌≡◌, ◌<◌, ◌≤◌, ◌++◌, ℕ, List, length, slice_index, slice_range};
ghost use Rattle.mod_layout.specs.Tables.{IsSection};
ghost use Rattle.mod_keys.specs.Fed.{IsFed};
ghost use Rattle.mod_keys.specs.Keys.{identity, module_key, tag_of};
ghost use Rattle.attest.specs.internal.Accesses.{text_in};

use mem_map::Memory;
use mod_keys::{Hmac, identity_tail, provider_key};
use mod_layout::Module;

const PAGE: usize = 256;

/// Feeds the bytes from `start`, below `end`.
pub fn feed(hmac: &mut Hmac, memory: &Memory, start: u16, end: u16)
    requires { start ≤ end }
    ensures size { start < end → length memory.now.bytes ≡ 65536 }
    ensures fed { (key message : List ℕ) → IsFed hmac.old key message
        → IsFed hmac.new key (message ++ slice_range memory.now.bytes start end) }
{
    let mut at = usize::from(start);
    while at < usize::from(end) {
        let low = at % PAGE;
        let high = PAGE.min(low + (usize::from(end) - at));
        hmac.update(&memory.page((at / PAGE) as u8)[low..high]);
        at += high - low;
    }
}

/// Feeds the identity of a module: its text as it stands in memory, and its places.
pub fn feed_identity(hmac: &mut Hmac, memory: &Memory, module: &Module)
    requires { IsSection «module».now.text }
    ensures size { length memory.now.bytes ≡ 65536 }
    ensures fed { (key message : List ℕ) → IsFed hmac.old key message
        → IsFed hmac.new key (message ++ identity «module».now (text_in memory.now.bytes «module».now)) }
{
    feed(hmac, memory, module.text.start, module.text.end);
    hmac.update(&identity_tail(module));
}

/// The key of a module with the text that stands in memory.
pub fn key_of(memory: &Memory, node_key: &[u8; 16], module: &Module) -> [u8; 16]
    requires { IsSection «module».now.text }
    ensures size { length memory.now.bytes ≡ 65536 }
    ensures key { result ≡ module_key node_key.now «module».now (text_in memory.now.bytes «module».now) }
{
    let mut hmac = Hmac::new(&provider_key(node_key, module.vendor));
    feed_identity(&mut hmac, memory, module);
    hmac.tag()
}

/// The tag of the identity of `other` under the key of `own`.
pub fn identity_tag(memory: &Memory, node_key: &[u8; 16], own: &Module, other: &Module) -> [u8; 16]
    requires own { IsSection own.now.text }
    requires other { IsSection other.now.text }
    ensures { result ≡ tag_of node_key.now own.now (text_in memory.now.bytes own.now)
        (identity other.now (text_in memory.now.bytes other.now)) }
{
    let mut hmac = Hmac::new(&key_of(memory, node_key, own));
    feed_identity(&mut hmac, memory, other);
    hmac.tag()
}

/// The tag of the bytes from `start`, below `end`, under the key of `own`.
pub fn message_tag(
    memory: &Memory,
    node_key: &[u8; 16],
    own: &Module,
    start: u16,
    end: u16,
) -> [u8; 16]
    requires own { IsSection own.now.text }
    requires order { start ≤ end }
    ensures size { length memory.now.bytes ≡ 65536 }
    ensures bytes { (k : ℕ) → slice_index result k < 256 }
    ensures tag { result ≡ tag_of node_key.now own.now (text_in memory.now.bytes own.now)
        (slice_range memory.now.bytes start end) }
{
    let mut hmac = Hmac::new(&key_of(memory, node_key, own));
    feed(&mut hmac, memory, start, end);
    hmac.tag()
}
