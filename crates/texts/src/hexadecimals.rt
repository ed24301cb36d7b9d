//! Lower-case hexadecimal digits.
ghost use Rattle.std.specs.Prelude.{◌≡◌, ◌+◌, ◌*◌, ◌≤◌, ◌++◌, length, Some, None, MatchBool, IsAscii};
ghost use Rattle.std.specs.List.{list_all};
ghost use Rattle.hex.specs.Hex.{encode_lower};
ghost use Rattle.arrayvec.specs.ArrayString.{array_string_len};
ghost use Rattle.texts.specs.Hexadecimals as spec;

use arrayvec::ArrayString;

/// A byte as two digits.
#[tactic(auto, unfolding(hex::specs::Hex::encode_with))]
pub fn hex_byte(byte: u8) -> ArrayString<2>
    ensures text { result.bytes ≡ spec.hex_byte byte }
{
    let mut digits = [0; 2];
    encode(&[byte], &mut digits);
    as_text(&digits)
}

/// A word as four digits.
#[tactic(auto, unfolding(hex::specs::Hex::encode_with))]
pub fn hex_word(word: u16) -> ArrayString<4>
    ensures text { result.bytes ≡ spec.hex_word word }
{
    let mut digits = [0; 4];
    encode(&word.to_be_bytes(), &mut digits);
    as_text(&digits)
}

/// A key of 16 bytes as 32 digits, byte 0 first.
pub fn hex_key(key: &[u8; 16]) -> ArrayString<32>
    ensures text { result.bytes ≡ spec.hex_key key.now }
{
    let mut digits = [0; 32];
    encode(key, &mut digits);
    as_text(&digits)
}

/// Appends a byte as two digits.
pub fn push_hex_byte<const N: usize>(byte: u8, out: &mut ArrayString<N>)
    requires room { array_string_len out.old + 2 ≤ N }
    ensures text { out.new.bytes ≡ out.old.bytes ++ spec.hex_byte byte }
    ensures length { array_string_len out.new ≡ array_string_len out.old + 2 }
{
    out.push_str(hex_byte(byte).as_str());
}

/// Appends a word as four digits.
pub fn push_hex_word<const N: usize>(word: u16, out: &mut ArrayString<N>)
    requires room { array_string_len out.old + 4 ≤ N }
    ensures text { out.new.bytes ≡ out.old.bytes ++ spec.hex_word word }
    ensures length { array_string_len out.new ≡ array_string_len out.old + 4 }
{
    out.push_str(hex_word(word).as_str());
}

/// The byte that two digits stand for; `None` if the text is anything else.
pub fn read_hex_byte(text: &[u8]) -> Option<u8>
    ensures byte { result ≡ spec.read_hex_byte text.now }
{
    let mut bytes = [0; 1];
    if decode(text, &mut bytes) {
        Some(bytes[0])
    } else {
        None
    }
}

/// The word that four digits stand for; `None` if the text is anything else.
pub fn read_hex_word(text: &[u8]) -> Option<u16>
    ensures word { result ≡ spec.read_hex_word text.now }
{
    let mut bytes = [0; 2];
    if decode(text, &mut bytes) {
        Some(u16::from_be_bytes(bytes))
    } else {
        None
    }
}

/// The key that 32 digits stand for; `None` if the text is anything else.
pub fn read_hex_key(text: &[u8]) -> Option<[u8; 16]>
    ensures key { result ≡ spec.read_hex_key text.now }
{
    let mut key = [0; 16];
    if decode(text, &mut key) {
        Some(key)
    } else {
        None
    }
}

/// Whether a byte is a digit: `0` to `9` or `a` to `f`.
pub fn is_hex_digit(byte: u8) -> bool
    ensures digit { result ≡ spec.is_hex_digit byte }
{
    matches!(byte, b'0'..=b'9' | b'a'..=b'f')
}

#[tactic(auto, unfolding(crate::specs::Hexadecimals::read_hex))]
// Whether the text is as many pairs of digits as there is room for bytes; these bytes are then written there.
fn decode(text: &[u8], bytes: &mut [u8]) -> bool
    ensures { MatchBool result (spec.read_hex (length bytes.old) text.now ≡ Some bytes.new)
        (spec.read_hex (length bytes.old) text.now ≡ None) }
{
    if !has_digits(text) {
        return false;
    }
    match hex::decode_to_slice(text, bytes) {
        Ok(()) => true,
        Err(_) => false,
    }
}

fn has_digits(text: &[u8]) -> bool
    ensures { result ≡ list_all spec.is_hex_digit text.now }
{
    text.iter().all(|byte| is_hex_digit(*byte))
}

// Writes the digits of bytes, for which there is room.
fn encode(bytes: &[u8], digits: &mut [u8])
    requires { length digits.old ≡ 2 * length bytes.now }
    ensures { digits.new ≡ encode_lower bytes.now }
{
    match hex::encode_to_slice(bytes, digits) {
        Ok(()) => {}
        Err(_) => unreachable!(),
    }
}

// Digits as a text.
fn as_text<const N: usize>(digits: &[u8; N]) -> ArrayString<N>
    requires { IsAscii digits.now }
    ensures { result.bytes ≡ digits.now }
{
    match ArrayString::from_byte_string(digits) {
        Ok(text) => text,
        Err(_) => unreachable!(),
    }
}
