//! Numbers as bytes, and zeros up to a multiple of 4.

ghost use Rattle.std.specs.Prelude.{◌≡◌, ◌++◌, OnOk};
ghost use Rattle.obj_write.specs.Bytes.{half_bytes, long_bytes, longs_bytes, padded_bytes};

use std::alloc::AllocError;

/// Writes the low two bytes of a number, the lowest first.
pub fn put_half(out: &mut Vec<u8>, n: usize) -> Result<(), AllocError>
    ensures { OnOk result (out.new.items ≡ out.old.items ++ half_bytes n) }
{
    out.extend_from_slice(&n.to_le_bytes()[..2])
}

/// Writes the low four bytes of a number, the lowest first.
pub fn put_word(out: &mut Vec<u8>, n: usize) -> Result<(), AllocError>
    ensures { OnOk result (out.new.items ≡ out.old.items ++ long_bytes n) }
{
    out.extend_from_slice(&n.to_le_bytes()[..4])
}

/// Writes the low four bytes of each of some numbers.
pub fn put_words(out: &mut Vec<u8>, ns: &[usize]) -> Result<(), AllocError>
    ensures { OnOk result (out.new.items ≡ out.old.items ++ longs_bytes ns.now) }
{
    for n in ns {
        put_word(out, *n)?;
    }
    Ok(())
}

/// Writes bytes, and zeros up to a multiple of 4 of them.
#[tactic(auto, unfolding(crate::specs::Bytes::padded_bytes))]
pub fn put_padded(out: &mut Vec<u8>, bytes: &[u8]) -> Result<(), AllocError>
    ensures { OnOk result (out.new.items ≡ out.old.items ++ padded_bytes bytes.now) }
{
    out.extend_from_slice(bytes)?;
    let missing = (4 - bytes.len() % 4) % 4;
    out.extend_from_slice(&[0; 4][..missing])
}
