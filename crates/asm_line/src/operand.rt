//! The text of an operand, read.

ghost use Rattle.std.specs.Prelude.{◌≡◌, ◌==◌, option_map, true};
ghost use Rattle.asm_line.specs.Identifiers as identifiers;
ghost use Rattle.asm_line.specs.Operands as spec;
ghost use Rattle.asm_line.specs.internal.Statements.{field_with_text, operand_value};
ghost use Rattle.std.specs.Option.{option_copied};
ghost use Rattle.std.specs.List.{list_all};

use crate::MAX_NAME;
use crate::statement::{Field, Value};
use insn_decode::Operand;
use texts::{read_decimal, read_hex_word};

#[tactic(auto, unfolding(crate::specs::Identifiers::is_name_byte))]
fn is_name_byte(byte: u8) -> bool
    ensures { result ≡ identifiers.is_name_byte byte }
{
    matches!(byte, b'a'..=b'z' | b'A'..=b'Z' | b'0'..=b'9' | b'_' | b'.')
}

// Whether there is a first byte, and it is no digit.
fn starts_name(text: &[u8]) -> bool
    ensures { result ≡ identifiers.starts_name text.now }
{
    match text {
        [] => false,
        [first, ..] => !matches!(*first, b'0'..=b'9'),
    }
}

fn has_name_bytes(text: &[u8]) -> bool
    ensures { result ≡ list_all identifiers.is_name_byte text.now }
{
    text.iter().all(|byte| is_name_byte(*byte))
}

/// Whether the text is a name: 1 to 64 letters, digits, `_` or `.`, and no digit first.
#[tactic(auto, unfolding(crate::specs::Identifiers::is_name))]
pub fn is_name(text: &[u8]) -> bool
    ensures { result ≡ identifiers.is_name text.now }
{
    starts_name(text) && text.len() <= MAX_NAME && has_name_bytes(text)
}

/// The text, where it is a name.
pub fn name_of(text: &[u8]) -> Option<&[u8]>
    ensures { option_copied result ≡ spec.name_of text.now }
{
    if is_name(text) { Some(text) } else { None }
}

/// A number by `0x` and four digits, or a name.
pub fn field_of(text: &[u8]) -> Option<Field<&[u8]>>
    ensures { option_map field_with_text result ≡ spec.field_of text.now }
{
    match text.strip_prefix(b"0x") {
        Some(digits) => read_hex_word(digits).map(|number| Field::Number(number)),
        None => name_of(text).map(|name| Field::Name(name)),
    }
}

// A register's number.
fn register_of(text: &[u8]) -> Option<u8>
    ensures { result ≡ spec.register_of text.now }
{
    match read_decimal(text, 15) {
        Some(number) => Some(number as u8),
        None => None,
    }
}

fn plain<'a>(operand: Operand) -> Value<'a>
    ensures { operand_value result ≡ spec.plain operand }
{
    Value {
        operand,
        name: None,
    }
}

// What stands behind `r`: a register.
fn register_operand<'a>(text: &[u8]) -> Option<Value<'a>>
    ensures { option_map operand_value result ≡ spec.register_operand text.now }
{
    Some(plain(Operand::Reg(register_of(text)?)))
}

// What stands behind `#`: -1, a number of four digits or a name, or a small number.
#[tactic(auto, unfolding(crate::specs::Operands::immediate_of))]
fn immediate_of(text: &[u8]) -> Option<Value<'_>>
    ensures { option_map operand_value result ≡ spec.immediate_of text.now }
{
    if text == b"-1".as_slice() {
        return Some(plain(Operand::Const(0xffff)));
    }
    match field_of(text) {
        Some(Field::Number(number)) => Some(plain(Operand::Imm(number))),
        Some(Field::Name(name)) => Some(Value {
            operand: Operand::Imm(0),
            name: Some(name),
        }),
        None => small_number_of(text),
    }
}

fn small_number_of<'a>(text: &[u8]) -> Option<Value<'a>>
    ensures { option_map operand_value result ≡ spec.number_by None text.now }
{
    match read_decimal(text, 8) {
        Some(number) => Some(plain(Operand::Const(number as u16))),
        None => None,
    }
}

// What stands behind `&`: a number of four digits or a name.
fn absolute_of(text: &[u8]) -> Option<Value<'_>>
    ensures { option_map operand_value result ≡ spec.absolute_of text.now }
{
    match field_of(text)? {
        Field::Number(number) => Some(plain(Operand::Absolute(number))),
        Field::Name(name) => Some(Value {
            operand: Operand::Absolute(0),
            name: Some(name),
        }),
    }
}

// What stands behind `@r`: a register, and `+` where it rises.
#[tactic(auto, unfolding(crate::specs::Operands::indirect_of))]
fn indirect_of<'a>(text: &[u8]) -> Option<Value<'a>>
    ensures { option_map operand_value result ≡ spec.indirect_of text.now }
{
    match text.strip_suffix(b"+") {
        Some(register) => Some(plain(Operand::Increment(register_of(register)?))),
        None => Some(plain(Operand::Indirect(register_of(text)?))),
    }
}

// What stands behind `0x`: four digits, and a register in parentheses.
#[tactic(auto, unfolding(crate::specs::Operands::indexed_of))]
fn indexed_of<'a>(text: &[u8]) -> Option<Value<'a>>
    ensures { option_map operand_value result ≡ spec.indexed_of text.now }
{
    if text.len() < 4 {
        return None;
    }
    let (digits, rest) = text.split_at(4);
    let register = rest.strip_prefix(b"(r")?.strip_suffix(b")")?;
    let x = read_hex_word(digits)?;
    let reg = register_of(register)?;
    Some(plain(Operand::Indexed { reg, x }))
}

/// The operand that a text writes, in the forms `rN`, `#NUMBER`, `&NUMBER`, `@rN`, `@rN+` and `0xHHHH(rN)`.
#[tactic(auto, unfolding(crate::specs::Operands::operand_of))]
pub fn operand_of(text: &[u8]) -> Option<Value<'_>>
    ensures { option_map operand_value result ≡ spec.operand_of text.now }
{
    if let Some(rest) = text.strip_prefix(b"r") {
        register_operand(rest)
    } else if let Some(rest) = text.strip_prefix(b"#") {
        immediate_of(rest)
    } else if let Some(rest) = text.strip_prefix(b"&") {
        absolute_of(rest)
    } else if let Some(rest) = text.strip_prefix(b"@r") {
        indirect_of(rest)
    } else {
        indexed_of(text.strip_prefix(b"0x")?)
    }
}
