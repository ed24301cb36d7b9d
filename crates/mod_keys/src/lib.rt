//! The keys of vendors and modules, derived by HMAC-SHA-256.
#![tactic(auto)]

mod keys;
mod mac;

pub use keys::{IDENTITY_TAIL, identity_tail, module_key, module_key_from, provider_key};
pub use mac::{BLOCK, Hmac, INNER_PAD, OUTER_PAD, TAG_LENGTH};
