//! HMAC-SHA-256 (FIPS 198-1 over FIPS 180-4), fed piece by piece.

ghost use Rattle.std.specs.Prelude.{◌≡◌, ◌≤◌, ◌-◌, ℕ, List, [], ◌++◌, map, bit_xor, length, replicate};
ghost use Rattle.mod_keys.specs.Mac.{block_key, hmac, short_hmac};

use sha2::{Digest, Sha256};

/// The size of a block of SHA-256 in bytes.
pub const BLOCK: usize = 64;

/// What each byte of the inner hash's block is exclusive-or.
pub const INNER_PAD: u8 = 0x36;

/// What each byte of the outer hash's block is exclusive-or.
pub const OUTER_PAD: u8 = 0x5c;

/// The number of bytes of a tag and of a key: the first of a HMAC.
pub const TAG_LENGTH: usize = 16;

// What the rules say of them: a changed number is refused here.
const _: () = prove!(BLOCK == 64 && INNER_PAD == 0x36 && OUTER_PAD == 0x5c && TAG_LENGTH == 16);

/// A HMAC-SHA-256 that is fed piece by piece.
#[derive(Drop)]
pub struct Hmac {
    inner: Sha256,
    outer: Sha256,
}

impl Hmac {
    ghost use Rattle.mod_keys.specs.Fed.{IsFed};

    /// The HMAC under `key`, with nothing fed yet. A key longer than 64 bytes is hashed first.
    pub fn new(key: &[u8]) -> Hmac
        ensures empty { IsFed result key.now [] }
    {
        let block = key_block(key);
        Hmac {
            inner: Sha256::new_with_prefix(masked(block, INNER_PAD)),
            outer: Sha256::new_with_prefix(masked(block, OUTER_PAD)),
        }
    }

    /// Joins `piece` to what was fed before.
    pub fn update(&mut self, piece: &[u8])
        ensures joined { (key message : List ℕ) → IsFed self.old key message
            → IsFed self.new key (message ++ piece.now) }
    {
        self.inner.update(piece);
    }

    /// The 32 bytes of the HMAC of all that was fed, however it was cut into pieces.
    pub fn finish(mut self) -> [u8; 32]
        ensures hmac { (key message : List ℕ) → IsFed self key message → result ≡ hmac key message }
    {
        let digest = self.inner.finalize();
        self.outer.update(digest);
        self.outer.finalize()
    }

    /// The first bytes of the HMAC of all that was fed: a tag or a key.
    pub fn tag(self) -> [u8; TAG_LENGTH]
        ensures tag { (key message : List ℕ) → IsFed self key message → result ≡ short_hmac key message }
    {
        let mut tag = [0; TAG_LENGTH];
        tag.copy_from_slice(&self.finish()[..TAG_LENGTH]);
        tag
    }
}

// The key as one block: hashed where it is longer, with zeros behind it where it is shorter.
fn key_block(key: &[u8]) -> [u8; BLOCK]
    ensures { result ≡ block_key key.now }
{
    if key.len() > BLOCK {
        filled(&Sha256::digest(key))
    } else {
        filled(key)
    }
}

// The bytes with zeros behind them, up to a block.
fn filled(front: &[u8]) -> [u8; BLOCK]
    requires { length front.now ≤ BLOCK }
    ensures { result ≡ front.now ++ replicate (BLOCK - length front.now) 0 }
{
    let mut block = [0; BLOCK];
    block[..front.len()].copy_from_slice(front);
    block
}

// Each byte of the block exclusive-or `mask`.
fn masked(mut block: [u8; BLOCK], mask: u8) -> [u8; BLOCK]
    ensures { result ≡ map (λ b. bit_xor b mask) block }
{
    for byte in &mut block {
        *byte ^= mask;
    }
    block
}
