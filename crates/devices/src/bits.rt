//! Bits of a register, and bytes of a word.

ghost use Rattle.std.specs.Prelude.{◌≡◌, ◌<◌, ◌==◌};
ghost use Rattle.std.specs.Int.{bit_at};
ghost use Rattle.devices.specs.Devices as spec;

// Whether bit `n` is set.
pub fn is_set(byte: u8, n: u8) -> bool
    requires bit { n < 8 }
    ensures exact { result ≡ (bit_at byte n == 1) }
{
    (byte >> n) & 1 == 1
}

// A bit's weight where it is set.
pub fn bit_if(set: bool, weight: u8) -> u8
    ensures exact { result ≡ spec.bit_if set weight }
{
    if set { weight } else { 0 }
}

// Four bits with bit `n` set.
pub fn with_set(bits: u8, n: u8) -> u8
    requires bits { bits < 16 }
    requires bit { n < 4 }
    ensures bit { result ≡ spec.with_bit bits n 1 }
    ensures bits { result < 16 }
{
    bits | (1 << n)
}

// Four bits with bit `n` clear.
pub fn with_clear(bits: u8, n: u8) -> u8
    requires bits { bits < 16 }
    requires bit { n < 4 }
    ensures bit { result ≡ spec.with_bit bits n 0 }
    ensures bits { result < 16 }
{
    bits & !(1 << n)
}

// A word with its low byte replaced.
pub fn with_low(word: u16, byte: u8) -> u16
    ensures exact { result ≡ spec.with_low word byte }
{
    word / 256 * 256 + u16::from(byte)
}

// A word with its high byte replaced.
pub fn with_high(word: u16, byte: u8) -> u16
    ensures exact { result ≡ spec.with_high word byte }
{
    word % 256 + 256 * u16::from(byte)
}
