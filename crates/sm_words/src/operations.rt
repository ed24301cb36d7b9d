//! The operations on bytes and words.
ghost use Rattle.std.specs.Prelude.{◌≡◌, ◌<◌, false, nat_le};
ghost use Rattle.sm_words.specs.Sums.{limit, low, is_negative, one_if, flagged, sum_of, dadd_of, shifted, rra_of, sxt_of, swpb_of, and_of, xor_of, decimal_sum, digits};

use crate::width::{Sum, Width};

/// Whether the sign bit is set.
fn is_negative(value: u16, width: Width) -> bool
    ensures { result ≡ is_negative width value }
{
    u32::from(width.low(value)) >= width.limit() / 2
}

/// A result with its flags, of which N and Z are read off it.
#[inline(always)]
fn flagged(value: u16, carry: bool, overflow: bool, width: Width) -> Sum
    ensures { result ≡ flagged width value carry overflow }
{
    Sum {
        value,
        n: is_negative(value, width),
        z: value == 0,
        c: carry,
        v: overflow,
    }
}

/// The sum of two bytes or words and a carry. C is set where it reaches 256 or 65,536, V where the sum
/// of the signed numbers is outside their range.
#[inline(always)]
pub fn add(a: u16, b: u16, c: bool, width: Width) -> Sum
    ensures exact { result ≡ sum_of width a b (one_if c) }
{
    let total = u32::from(width.low(a)) + u32::from(width.low(b)) + u32::from(c);
    let sum = carried(total, width);
    // The signed sum is outside where both have the same sign, and the result the other.
    let negative = is_negative(a, width);
    Sum {
        v: negative == is_negative(b, width) && negative != sum.n,
        ..sum
    }
}

/// A total reduced to a byte or a word, with the carry out of it; V is 0.
#[inline(always)]
fn carried(total: u32, width: Width) -> Sum
    ensures { result ≡ flagged width (low width total) (nat_le (limit width) total) false }
{
    let bound = width.limit();
    flagged((total % bound) as u16, total >= bound, false, width)
}

/// The decimal sum of two bytes or words and a carry, by digits of four bits. C is the carry of the
/// highest digit; V is 0.
pub fn dadd(a: u16, b: u16, c: bool, width: Width) -> Sum
    ensures exact { result ≡ dadd_of width a b (one_if c) }
{
    let digits = match width {
        Width::Byte => 2,
        Width::Word => 4,
    };
    let total = decimal_sum(digits, width.low(a), width.low(b), c);
    carried(total, width)
}

/// The decimal sum of this many digits; the carry out of the last is one digit more.
#[tactic(auto, using(crate::proofs::Decimal::decimal_small))]
fn decimal_sum(digits: u8, a: u16, b: u16, c: bool) -> u32
    requires { digits < 5 }
    ensures { result ≡ decimal_sum digits a b (one_if c) }
{
    if digits == 0 {
        return u32::from(c);
    }
    let sum = a % 16 + b % 16 + u16::from(c);
    let carry = sum > 9;
    let digit = if carry { (sum - 10) % 16 } else { sum };
    u32::from(digit) + 16 * decimal_sum(digits - 1, a / 16, b / 16, carry)
}

/// A byte or a word rotated right by one through the carry: the old carry becomes the highest bit, the
/// lowest bit the carry. V is 0.
pub fn rrc(a: u16, c: bool, width: Width) -> Sum
    ensures exact { result ≡ shifted width a (one_if c) }
{
    let top = if c { width.limit() / 2 } else { 0 };
    let value = width.low(a) / 2 + top as u16;
    flagged(value, a % 2 == 1, false, width)
}

/// A byte or a word shifted right by one with its sign kept; C is the bit shifted out, V is 0.
pub fn rra(a: u16, width: Width) -> Sum
    ensures exact { result ≡ rra_of width a }
{
    rrc(a, is_negative(a, width), width)
}

/// The low byte as a signed word. C is the opposite of Z, V is 0.
pub fn sxt(a: u16) -> Sum
    ensures exact { result ≡ sxt_of a }
{
    let byte = Width::Byte.low(a);
    let value = if byte >= 0x80 { byte + 0xff00 } else { byte };
    flagged(value, value != 0, false, Width::Word)
}

/// The word with its two bytes swapped.
pub fn swpb(a: u16) -> u16
    ensures exact { result ≡ swpb_of a }
{
    a / 0x100 + 0x100 * (a % 0x100)
}

/// Bitwise and. C is the opposite of Z, V is 0.
#[inline(always)]
pub fn and(a: u16, b: u16, width: Width) -> Sum
    ensures exact { result ≡ and_of width a b }
{
    let value = width.low(a) & width.low(b);
    flagged(value, value != 0, false, width)
}

/// Bitwise exclusive or. C is the opposite of Z, V is set if both operands are
/// negative.
#[inline(always)]
pub fn xor(a: u16, b: u16, width: Width) -> Sum
    ensures exact { result ≡ xor_of width a b }
{
    let value = width.low(a) ^ width.low(b);
    let both = is_negative(a, width) && is_negative(b, width);
    flagged(value, value != 0, both, width)
}
