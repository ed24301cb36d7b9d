//! Relocations of the MSP430: the number of a field, and how it is written.
#![tactic(auto)]

ghost use Rattle.std.specs.Prelude.{◌≡◌, ◌<◌, ◌≤◌, ◌+◌, ◌≤ℤ◌, ◌^◌, Ok, Err, pos, negsuc, length, IfErr, OnOk, OnErr, true};
ghost use Rattle.reloc_apply.specs.Fields.{row_of, field_size, limit_of, is_jump_field, difference_of, field_value, modulo, kept_of, with_number, is_odd_integer, is_in_bounds, with_value, field_written, relocated_by, relocated, with_field, ChangesOnly, row_size};
ghost use Rattle.reloc_apply.specs.internal.Leaves.{Leaves};

use byteorder::{ByteOrder, LittleEndian};

pub mod laws;

/// Why a relocation is refused, in the order in which the causes are looked at.
#[derive(Clone, Copy, Debug, PartialEq, Eq)]
pub enum RelocFault {
    /// There is no such kind of relocation.
    Kind { n: u64 },
    /// The field ends past the section's bytes.
    Outside,
    /// A jump's symbol plus addend less its place, which is odd.
    Odd { value: i64 },
    /// The value is outside the kind's bounds.
    Range { value: i64 },
}

/// The bits of a section that a relocation writes.
#[derive(Clone, Copy, PartialEq, Eq)]
enum Field {
    /// One byte.
    Byte,
    /// Two bytes.
    Half,
    /// Four bytes.
    Word,
    /// The low ten bits of two bytes.
    Jump,
}

impl Field {
    fn size(self) -> usize
        ensures { result ≡ field_size self }
    {
        match self {
            Field::Byte => 1,
            Field::Half => 2,
            Field::Word => 4,
            Field::Jump => 2,
        }
    }

    fn limit(self) -> i64
        ensures { result ≡ pos (limit_of self) }
    {
        match self {
            Field::Byte => 256,
            Field::Half => 65536,
            Field::Word => 4294967296,
            Field::Jump => 1024,
        }
    }

    fn is_jump(self) -> bool
        ensures { result ≡ is_jump_field self }
    {
        match self {
            Field::Jump => true,
            _ => false,
        }
    }
}

/// A row of the table of kinds: the field, whether its value is relative to its place, and the
/// value's bounds.
#[derive(Clone, Copy)]
struct Row {
    field: Field,
    relative: bool,
    low: i64,
    high: i64,
}

#[tactic(auto, unfolding(crate::specs::Fields::row_of))]
fn row_of(kind: u8) -> Option<Row>
    ensures { result ≡ row_of kind }
{
    match kind {
        1 => Some(Row {
            field: Field::Word,
            relative: false,
            low: -2147483648,
            high: 4294967295,
        }),
        2 => Some(Row {
            field: Field::Jump,
            relative: true,
            low: -512,
            high: 511,
        }),
        3 | 5 => Some(Row {
            field: Field::Half,
            relative: false,
            low: -32768,
            high: 65535,
        }),
        4 | 6 => Some(Row {
            field: Field::Half,
            relative: true,
            low: -65535,
            high: 65535,
        }),
        9 => Some(Row {
            field: Field::Byte,
            relative: false,
            low: -128,
            high: 255,
        }),
        _ => None,
    }
}

fn difference_of(relative: bool, place: u16, sum: i64) -> i64
    requires low { negsuc 8589934591 ≤ℤ sum }
    requires high { sum ≤ℤ pos 8589934592 }
    ensures { result ≡ difference_of relative place sum }
{
    if relative {
        sum - i64::from(place)
    } else {
        sum
    }
}

fn field_value(jump: bool, difference: i64) -> i64
    requires low { negsuc 9000000000 ≤ℤ difference }
    requires high { difference ≤ℤ pos 9000000000 }
    ensures { result ≡ field_value jump difference }
{
    if jump { difference / 2 - 1 } else { difference }
}

fn is_odd_integer(difference: i64) -> bool
    ensures { result ≡ is_odd_integer difference }
{
    difference.unsigned_abs() % 2 == 1
}

fn is_in_bounds(row: Row, value: i64) -> bool
    ensures { result ≡ is_in_bounds row value }
{
    row.low <= value && value <= row.high
}

fn modulo(value: i64, field: Field) -> u64
    ensures value { result ≡ modulo value (limit_of field) }
    ensures below { result < limit_of field }
{
    value.rem_euclid(field.limit()) as u64
}

fn kept_of(jump: bool, bytes: &[u8], offset: usize) -> u64
    requires { jump ≡ true → offset + 2 ≤ length bytes.now }
    ensures value { result ≡ kept_of jump bytes.now offset }
    ensures high { result ≤ 64512 }
{
    if jump {
        u64::from(LittleEndian::read_u16(&bytes[offset..])) / 1024 * 1024
    } else {
        0
    }
}

#[tactic(auto, using(crate::proofs::FieldLemmas::changes_only))]
fn with_number(bytes: &mut [u8], offset: usize, size: usize, number: u64)
    requires low { 1 ≤ size }
    requires high { size ≤ 8 }
    requires within { offset + size ≤ length bytes.old }
    requires fits { number < 256 ^ size }
    ensures value { bytes.new ≡ with_number bytes.old offset size number }
    ensures elsewhere { ChangesOnly bytes.old bytes.new offset size }
{
    LittleEndian::write_uint(&mut bytes[offset..], number, size);
}

#[tactic(auto, using(crate::proofs::FieldLemmas::fits), unfolding(crate::specs::Fields::field_written))]
fn write(row: Row, offset: usize, bytes: &mut [u8], value: i64) -> Result<(), RelocFault>
    requires { offset + field_size row.field ≤ length bytes.old }
    ensures value { Leaves bytes.old bytes.new result (field_written row offset bytes.old value) }
    ensures put { OnOk result (bytes.new ≡ with_value row offset bytes.old value) }
    ensures elsewhere { OnOk result (ChangesOnly bytes.old bytes.new offset (field_size row.field)) }
{
    if !is_in_bounds(row, value) {
        return Err(RelocFault::Range { value });
    }
    let number = kept_of(row.field.is_jump(), bytes, offset) + modulo(value, row.field);
    with_number(bytes, offset, row.field.size(), number);
    Ok(())
}

#[tactic(auto, unfolding(crate::specs::Fields::relocated_by))]
fn apply_row(row: Row, difference: i64, offset: u32, bytes: &mut [u8]) -> Result<(), RelocFault>
    requires low { negsuc 9000000000 ≤ℤ difference }
    requires high { difference ≤ℤ pos 9000000000 }
    ensures value { Leaves bytes.old bytes.new result (relocated_by row difference offset bytes.old) }
    ensures put { OnOk result (bytes.new ≡ with_value row offset bytes.old (field_value (is_jump_field row.field)
        difference)) }
    ensures elsewhere { OnOk result (ChangesOnly bytes.old bytes.new offset (field_size row.field)) }
{
    let offset = offset as usize;
    if bytes.len() < offset + row.field.size() {
        return Err(RelocFault::Outside);
    }
    let jump = row.field.is_jump();
    if jump && is_odd_integer(difference) {
        return Err(RelocFault::Odd { value: difference });
    }
    write(row, offset, bytes, field_value(jump, difference))
}

/// Writes the field of a relocation of this kind at `offset` of a section's bytes. `place` is the
/// field's address, and `sum` is the address of the symbol plus the addend.
///
/// | Kind | Field | Value | Bounds |
/// |---|---|---|---|
/// | 0 | none | nothing is written | |
/// | 1 | 4 bytes | sum | -2^31 to 2^32 - 1 |
/// | 2 | the low 10 bits of 2 bytes | (sum - place) / 2 - 1 | -512 to 511 |
/// | 3, 5 | 2 bytes | sum | -32,768 to 65,535 |
/// | 4, 6 | 2 bytes | sum - place | -65,535 to 65,535 |
/// | 9 | 1 byte | sum | -128 to 255 |
///
/// The number is the value modulo the field, its low byte first. The kinds are those of ELF for the
/// MSP430 (machine 105).
#[tactic(auto, using(crate::proofs::AppliesLemmas::none_at_0), unfolding(crate::specs::Fields::relocated, crate::specs::Fields::with_field))]
pub fn apply(
    kind: u8,
    place: u16,
    sum: i64,
    offset: u32,
    bytes: &mut [u8],
) -> Result<(), RelocFault>
    requires low { negsuc 8589934591 ≤ℤ sum }
    requires high { sum ≤ℤ pos 8589934592 }
    ensures written { OnOk result (relocated kind place sum offset bytes.old ≡ Ok bytes.new) }
    ensures put { OnOk result (bytes.new ≡ with_field kind place sum offset bytes.old) }
    ensures refused { IfErr result (λ fault. relocated kind place sum offset bytes.old ≡ Err fault) }
    ensures unchanged { OnErr result (bytes.new ≡ bytes.old) }
    ensures elsewhere { ChangesOnly bytes.old bytes.new offset (row_size (row_of kind)) }
{
    if kind == 0 {
        return Ok(());
    }
    match row_of(kind) {
        None => Err(RelocFault::Kind { n: u64::from(kind) }),
        Some(row) => apply_row(row, difference_of(row.relative, place, sum), offset, bytes),
    }
}
