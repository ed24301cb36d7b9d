//! Decimal numbers, without sign or leading zero: written and read.
ghost use Rattle.std.specs.Prelude.{◌≡◌, ◌+◌, ◌++◌, ◌<◌, ◌≤◌, ◌^◌, true, IfSome};
ghost use Rattle.std.specs.Option.{SomeIff};
ghost use Rattle.std.specs.List.{list_all};
ghost use Rattle.std.specs.Char.{is_ascii_digit};
ghost use Rattle.std.specs.Fmt as fmt;
ghost use Rattle.arrayvec.specs.ArrayString.{array_string_len};
ghost use Rattle.texts.specs.Decimals as spec;

use arrayvec::ArrayString;
use itoa::{Buffer, Integer};

/// The decimal digits of a number.
pub fn decimal(number: u64) -> ArrayString<20>
    ensures text { result.bytes ≡ fmt.decimal number }
{
    let mut digits = Buffer::new();
    let mut text = ArrayString::new();
    text.push_str(digits.format(number));
    text
}

/// Appends the decimal digits of a number.
pub fn push_decimal<I: Integer, const N: usize>(number: I, out: &mut ArrayString<N>)
    requires room { array_string_len out.old + I.MAX_STR_LEN ≤ N }
    ensures text { out.new.bytes ≡ out.old.bytes ++ I.text number }
    ensures most { array_string_len out.new ≤ array_string_len out.old + I.MAX_STR_LEN }
{
    let mut digits = Buffer::new();
    out.push_str(digits.format(number));
}

/// The number whose decimal the text is, where it is at most `most`.
///
/// So `most` of 10^n - 1 allows at most n digits. `None` for every other text.
#[tactic(auto, unfolding(crate::specs::Decimals::read_decimal), using(std::proofs::lemmas::Bool::Decides::nat_tests))]
pub fn read_decimal(text: &[u8], most: u64) -> Option<u64>
    ensures number { result ≡ spec.read_decimal most text.now }
    ensures low { IfSome result (λ number. number ≤ most) }
{
    if !is_decimal(text) {
        return None;
    }
    match number_in(text) {
        None => None,
        Some(number) => if number <= most { Some(number) } else { None },
    }
}

/// Whether these are decimal digits, at least one, without a leading zero: the decimal of some number.
pub fn is_decimal(text: &[u8]) -> bool
    ensures decimal { result ≡ spec.is_decimal text.now }
{
    match text {
        [] => false,
        [first, more @ ..] => has_digits(text) && (*first != b'0' || more.is_empty()),
    }
}

// Whether all of these are decimal digits.
fn has_digits(text: &[u8]) -> bool
    ensures { result ≡ list_all is_ascii_digit text.now }
{
    text.iter().all(|byte| byte.is_ascii_digit())
}

// The number that decimal digits write, where 64 bits hold it.
fn number_in(digits: &[u8]) -> Option<u64>
    requires decimal { spec.is_decimal digits.now ≡ true }
    ensures { SomeIff result (spec.number_in digits.now < 2 ^ 64) (spec.number_in digits.now) }
{
    match str::from_utf8(digits) {
        Ok(text) => parsed(text),
        Err(_) => unreachable!(),
    }
}

fn parsed(digits: &str) -> Option<u64>
    requires decimal { spec.is_decimal digits.now ≡ true }
    ensures { SomeIff result (spec.number_in digits.now < 2 ^ 64) (spec.number_in digits.now) }
{
    digits.parse().ok()
}
