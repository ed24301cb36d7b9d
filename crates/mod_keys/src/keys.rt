//! The keys that are derived by HMAC.

ghost use Rattle.std.specs.Prelude.{◌≡◌, length};
ghost use Rattle.mod_layout.specs.Table.{size_of};
ghost use Rattle.mod_keys.specs.Keys.{identity_tail, module_key, module_key_from, provider_key};

use crate::mac::{Hmac, TAG_LENGTH};
use mod_layout::Module;

/// The bytes of a module's identity past its text.
pub const IDENTITY_TAIL: usize = 8;

// What the rules say of them: a changed number is refused here.
const _: () = prove!(IDENTITY_TAIL == 8);

/// The key of a vendor's modules on a node: the first 16 bytes of the HMAC under the node's key of the
/// vendor's number in two bytes, the low byte first.
#[tactic(auto, unfolding(crate::specs::Keys::provider_key))]
pub fn provider_key(node_key: &[u8; TAG_LENGTH], vendor: u16) -> [u8; TAG_LENGTH]
    ensures key { result ≡ provider_key node_key.now vendor }
{
    let mut hmac = Hmac::new(node_key);
    hmac.update(&vendor.to_le_bytes());
    hmac.tag()
}

/// The eight bytes of a module's identity past its text: text start, text end, data start and data end,
/// each as two bytes, the low byte first.
pub fn identity_tail(module: &Module) -> [u8; IDENTITY_TAIL]
    ensures bytes { result ≡ identity_tail «module».now }
{
    let [text_start_low, text_start_high] = module.text.start.to_le_bytes();
    let [text_end_low, text_end_high] = module.text.end.to_le_bytes();
    let [ram_start_low, ram_start_high] = module.ram.start.to_le_bytes();
    let [ram_end_low, ram_end_high] = module.ram.end.to_le_bytes();
    [
        text_start_low,
        text_start_high,
        text_end_low,
        text_end_high,
        ram_start_low,
        ram_start_high,
        ram_end_low,
        ram_end_high,
    ]
}

/// The key of a module whose text this is, on a node: that under the key of its vendor.
#[tactic(auto, unfolding(crate::specs::Keys::module_key))]
pub fn module_key(node_key: &[u8; TAG_LENGTH], module: &Module, text: &[u8]) -> [u8; TAG_LENGTH]
    requires size { length text.now ≡ size_of «module».now.text }
    ensures key { result ≡ module_key node_key.now «module».now text.now }
{
    module_key_from(&provider_key(node_key, module.vendor), module, text)
}

/// The key of a module whose text this is, under the key of its vendor: the first 16 bytes of the HMAC
/// of its identity, which is the text and then [`identity_tail`].
pub fn module_key_from(
    provider: &[u8; TAG_LENGTH],
    module: &Module,
    text: &[u8],
) -> [u8; TAG_LENGTH]
    requires size { length text.now ≡ size_of «module».now.text }
    ensures key { result ≡ module_key_from provider.now «module».now text.now }
{
    let mut hmac = Hmac::new(provider);
    hmac.update(text);
    hmac.update(&identity_tail(module));
    hmac.tag()
}
