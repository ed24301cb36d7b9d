//! What the operations keep, each the contract of a function that does nothing.
ghost use Rattle.std.specs.Prelude.{◌≡◌, ◌+◌, ◌*◌, ◌/◌, ◌%◌, ◌^◌, ◌<◌, ◌≤◌, ◌↔◌, ◌+ℤ◌, ◌-ℤ◌, ◌<ℤ◌, ℕ, List, pos, IsTrue, IsFalse};
ghost use Rattle.sm_words.specs.Words.{bit, core_of, IsCore};
ghost use Rattle.sm_words.specs.Sums.{limit, low, is_negative, signed, one_if, is_outside, sum_of, complement, dadd_of, digits, shifted, rra_of, sxt_of, swpb_of, and_of, xor_of};
ghost use Rattle.sm_words.specs.declared.width.Width.TheVariants.{Byte, Word};
ghost use Rattle.sm_words.specs.Decimals.{IsDecimal, digits_number, bound_of};

use crate::width::Width;

/// The sign bit says that the signed number is below 0.
pub fn sign(a: u16, width: Width)
    ensures below_zero { IsTrue (is_negative width a) ↔ (signed width a <ℤ pos 0) }
{}

/// A sum is its value and its carry, and the signed sum where there is no overflow.
pub fn addition(a: u16, b: u16, c: bool, width: Width)
    ensures whole { let s = sum_of width a b (one_if c) in
        s.value + limit width * one_if s.c ≡ low width a + low width b + one_if c }
    ensures fits { (sum_of width a b (one_if c)).value < limit width }
    ensures signed { let s = sum_of width a b (one_if c) in
        IsFalse s.v → signed width s.value ≡ signed width a +ℤ signed width b +ℤ pos (one_if c) }
{}

/// To add the complement and 1 is to subtract: C is clear where it borrows, Z says that both are equal,
/// V that the signed difference is outside the range.
pub fn subtraction(a: u16, b: u16, width: Width)
    ensures value { let s = sum_of width a (complement width b) 1 in
        (s.value + low width b) % limit width ≡ low width a }
    ensures carry { IsTrue (sum_of width a (complement width b) 1).c ↔ (low width b ≤ low width a) }
    ensures equal { IsTrue (sum_of width a (complement width b) 1).z ↔ (low width a ≡ low width b) }
    ensures overflow { (sum_of width a (complement width b) 1).v
        ≡ is_outside width (signed width a -ℤ signed width b) }
    ensures signed { let s = sum_of width a (complement width b) 1 in
        IsFalse s.v → signed width s.value ≡ signed width a -ℤ signed width b }
{}

/// To add the complement and no carry is to subtract one more.
pub fn subtraction_with_borrow(a: u16, b: u16, width: Width)
    ensures value { let s = sum_of width a (complement width b) 0 in
        (s.value + low width b + 1) % limit width ≡ low width a }
    ensures carry { IsTrue (sum_of width a (complement width b) 0).c ↔ (low width b < low width a) }
{}

/// The decimal sum of two decimal numbers is their sum modulo 100 or 10,000, with its carry.
pub fn decimal_addition(a: u16, b: u16, c: bool, width: Width)
    requires a_decimal { IsDecimal (digits width) (low width a) }
    requires b_decimal { IsDecimal (digits width) (low width b) }
    ensures decimal { IsDecimal (digits width) (dadd_of width a b (one_if c)).value }
    ensures whole { let s = dadd_of width a b (one_if c) in
        let n = digits width in
        digits_number n s.value + bound_of n * one_if s.c
        ≡ digits_number n (low width a) + digits_number n (low width b) + one_if c }
{}

/// A rotation through the carry turns the carry and the byte or word as one number: it is halved, its
/// lowest bit is the new carry.
pub fn rotation(a: u16, c: bool, width: Width)
    ensures halves { let s = shifted width a (one_if c) in
        2 * s.value + one_if s.c ≡ low width a + limit width * one_if c }
    ensures fits { (shifted width a (one_if c)).value < limit width }
{}

/// An arithmetic shift halves a signed number, rounding down; the carry is what is left.
pub fn halving(a: u16, width: Width)
    ensures halves { let s = rra_of width a in
        signed width s.value +ℤ signed width s.value +ℤ pos (one_if s.c) ≡ signed width a }
    ensures fits { (rra_of width a).value < limit width }
{}

/// The sign extension is the signed number of the low byte.
pub fn sign_extension(a: u16)
    ensures signed { signed Word (sxt_of a).value ≡ signed Byte a }
{}

/// Swapping exchanges the two bytes, so twice it changes nothing.
pub fn swapping(a: u16)
    ensures high { swpb_of a / 256 ≡ a % 256 }
    ensures low { swpb_of a % 256 ≡ a / 256 }
    ensures twice { swpb_of (swpb_of a) ≡ a }
{}

/// Each bit of AND is the product of the two bits.
pub fn conjunction(a: u16, b: u16, width: Width)
    ensures bits { (k : ℕ) → bit (2 ^ k) (and_of width a b).value
        ≡ bit (2 ^ k) (low width a) * bit (2 ^ k) (low width b) }
{}

/// Each bit of XOR is the sum of the two bits, modulo 2.
pub fn difference(a: u16, b: u16, width: Width)
    ensures bits { (k : ℕ) → bit (2 ^ k) (xor_of width a b).value
        ≡ (bit (2 ^ k) (low width a) + bit (2 ^ k) (low width b)) % 2 }
{}

/// A core's own words are all kept.
pub fn unchanged()
    ensures kept { (core : List ℕ) → IsCore core → core_of core ≡ core }
{}
