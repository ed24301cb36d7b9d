//! One function for each kind of value that a layout's keys hold.
ghost use Rattle.std.specs.Prelude.{◌≡◌, length, map, option_map, option_and_then, string_bytes, ◌<◌, ◌≤◌, [], None, IfOk};
ghost use Rattle.toml.specs.Data.{get_member};
ghost use Rattle.toml.specs.View.{view, items_view, table_view};
ghost use Rattle.std.specs.List.{list_all, list_any, slice_index_or};
ghost use Rattle.std.specs.Map.{keys_of};
ghost use Rattle.std.specs.Str.{bytes_eq};
ghost use Rattle.layout_file.specs.Rows as rows;
ghost use Rattle.layout_file.specs.Checked.{map_ok};
ghost use Rattle.layout_file.specs.internal.Checked.{ReadsAs};
ghost use Rattle.layout_file.specs.Views.{string_values, vectors_of};
ghost use Rattle.layout_file.specs.internal.Views.{table_members, vector_list};
ghost use Rattle.layout_file.specs.Rows.{is_layout_name_byte};

use crate::fault::{Key, LayoutFault, Spot};
use crate::parts::VectorName;
use hex::FromHex;
use mod_layout::Section;
use std::alloc::Global;
use toml::{Table, Value};

/// The integers from `least` to `most`, the even ones of them alone where `even` says so.
#[derive(Clone, Copy)]
pub struct Bounds {
    pub least: u16,
    pub most: u16,
    pub even: bool,
}

/// The key is one of these.
fn is_known_key(keys: &[Key], name: &str) -> bool
    ensures { result ≡ rows.is_known_key keys.now name.now }
{
    keys.iter().any(|key| key.name() == name)
}

/// The table has no key that is not listed.
fn has_listed_keys(table: &Table, keys: &[Key]) -> bool
    ensures { result ≡ list_all (λ k. rows.is_known_key keys.now (string_bytes k)) (keys_of table.now.entries) }
{
    table.keys().all(|key| is_known_key(keys, key.as_str()))
}

/// Refuses a table with a key that is not known.
fn known(is_known: bool, number: Option<u32>) -> Result<(), LayoutFault>
    ensures { result ≡ rows.known is_known number }
{
    if is_known {
        Ok(())
    } else {
        Err(LayoutFault::UnknownKey { module: number })
    }
}

/// Refuses a table with a key that is not listed.
#[tactic(auto, using(crate::proofs::RowLemmas::keys_seen))]
pub fn listed(table: &Table, keys: &[Key], number: Option<u32>) -> Result<(), LayoutFault>
    ensures { result ≡ rows.listed keys.now number (table_view table.now) }
{
    known(has_listed_keys(table, keys), number)
}

/// The value at the key with this name.
fn value_at<'a>(table: &'a Table, name: &str) -> Option<&'a Value>
    ensures { option_map (λ v. view v.now) result ≡ get_member name.now (table_view table.now) }
{
    table.get(name)
}

/// The value at a key.
fn member_at(table: &Table, spot: Spot) -> Option<&Value>
    ensures { option_map (λ v. view v.now) result ≡ rows.member_at spot (table_view table.now) }
{
    value_at(table, spot.key.name())
}

/// The value at a key that may not be absent.
pub fn needed(table: &Table, spot: Spot) -> Result<&Value, LayoutFault>
    ensures { map_ok (λ v. view v.now) result ≡ rows.needed spot (table_view table.now) }
{
    member_at(table, spot).ok_or(LayoutFault::MissingKey { spot })
}

/// The integer, if it is within the bounds.
fn in_bounds(spot: Spot, bounds: Bounds, value: i64) -> Result<u16, LayoutFault>
    ensures { result ≡ rows.in_bounds spot bounds value }
{
    if value < i64::from(bounds.least) || i64::from(bounds.most) < value {
        return Err(LayoutFault::OutOfRange { spot, value });
    }
    let number = value as u16;
    if bounds.even && number % 2 != 0 {
        return Err(LayoutFault::OutOfRange { spot, value });
    }
    Ok(number)
}

/// A row with one integer.
pub fn integer(table: &Table, spot: Spot, bounds: Bounds) -> Result<u16, LayoutFault>
    ensures { result ≡ rows.integer spot bounds (table_view table.now) }
{
    let value = needed(table, spot)?
        .as_integer()
        .ok_or(LayoutFault::WrongKind { spot })?;
    in_bounds(spot, bounds, value)
}

/// The two integers, if these are two.
fn two_integers(items: &[Value]) -> Option<(i64, i64)>
    ensures { result ≡ option_and_then rows.two_integers (rows.two (items_view items.now)) }
{
    if items.len() != 2 {
        return None;
    }
    let start = items[0].as_integer()?;
    let end = items[1].as_integer()?;
    Some((start, end))
}

/// The two integers of an array of two.
fn as_pair(value: &Value) -> Option<(i64, i64)>
    ensures { result ≡ rows.as_pair (view value.now) }
{
    two_integers(value.as_array()?.as_slice())
}

/// A row with two integers within the bounds, the first not above the second.
pub fn section_member(table: &Table, spot: Spot, bounds: Bounds) -> Result<Section, LayoutFault>
    ensures { result ≡ rows.section_member spot bounds (table_view table.now) }
{
    let (first, second) = as_pair(needed(table, spot)?).ok_or(LayoutFault::WrongKind { spot })?;
    let start = in_bounds(spot, bounds, first)?;
    let end = in_bounds(spot, bounds, second)?;
    if start <= end {
        Ok(Section { start, end })
    } else {
        Err(LayoutFault::OutOfRange {
            spot,
            value: second,
        })
    }
}

/// A row with a key of 32 hexadecimal digits.
pub fn key_member(table: &Table, spot: Spot) -> Result<[u8; 16], LayoutFault>
    ensures { result ≡ rows.key_member spot (table_view table.now) }
{
    let text = needed(table, spot)?
        .as_str()
        .ok_or(LayoutFault::WrongKind { spot })?;
    match <[u8; 16] as FromHex>::from_hex(text) {
        Ok(key) => Ok(key),
        Err(_) => Err(LayoutFault::WrongKind { spot }),
    }
}

/// The text has letters, digits and `_` alone.
fn has_name_bytes(text: &str) -> bool
    ensures { result ≡ list_all is_layout_name_byte text.now }
{
    text.as_bytes()
        .iter()
        .all(|byte| byte.is_ascii_alphanumeric() || *byte == b'_')
}

/// The text is 1 to `most` letters, digits and `_`.
fn is_layout_name(text: &str, most: usize) -> bool
    ensures { result ≡ rows.is_layout_name most text.now }
{
    1 <= text.len() && text.len() <= most && has_name_bytes(text)
}

/// A row with a name of at most `most` bytes.
pub fn name(alloc: Global, table: &Table, spot: Spot, most: usize) -> Result<String, LayoutFault>
    ensures { ReadsAs string_bytes result (rows.name spot most (table_view table.now)) }
{
    let text = needed(table, spot)?
        .as_str()
        .ok_or(LayoutFault::WrongKind { spot })?;
    if !is_layout_name(text, most) {
        return Err(LayoutFault::WrongKind { spot });
    }
    Ok(String::from_str(alloc, text)?)
}

/// A copy of a value that is a string.
fn string(alloc: Global, value: &Value, spot: Spot) -> Result<String, LayoutFault>
    ensures { ReadsAs string_bytes result (rows.string spot (view value.now)) }
{
    let text = value.as_str().ok_or(LayoutFault::WrongKind { spot })?;
    Ok(String::from_str(alloc, text)?)
}

/// Copies of the values of an array, each a string.
fn strings(alloc: Global, items: &[Value], spot: Spot) -> Result<Vec<String>, LayoutFault>
    ensures { ReadsAs string_values result (rows.strings spot (rows.item_list (items_view items.now))) }
{
    let mut names = Vec::new(alloc);
    for item in items {
        names.push(string(alloc, item, spot)?)?;
    }
    Ok(names)
}

/// A row with 1 to `most` strings.
pub fn entries(
    alloc: Global,
    table: &Table,
    spot: Spot,
    most: usize,
) -> Result<Vec<String>, LayoutFault>
    ensures { ReadsAs string_values result (rows.entries spot most (table_view table.now)) }
{
    let items = needed(table, spot)?
        .as_array()
        .ok_or(LayoutFault::WrongKind { spot })?;
    let names = strings(alloc, items.as_slice(), spot)?;
    if names.as_slice().len() > most {
        return Err(LayoutFault::TooMany { spot });
    }
    if names.is_empty() {
        return Err(LayoutFault::OutOfRange { spot, value: 0 });
    }
    Ok(names)
}

/// The keys of the table of vectors.
static VECTOR_KEYS: [&str; 16] = [
    "v0", "v1", "v2", "v3", "v4", "v5", "v6", "v7", "v8", "v9", "v10", "v11", "v12", "v13", "v14",
    "v15",
];

/// The text is one of these.
fn is_among(texts: &[&str], name: &str) -> bool
    ensures { result ≡ list_any (λ text. bytes_eq text.now name.now) texts.now }
{
    texts.iter().any(|text| *text == name)
}

/// The table has no key but those of vectors.
fn has_vector_keys(table: &Table) -> bool
    ensures { result ≡ list_all (λ k. rows.is_vector_key (string_bytes k)) (keys_of table.now.entries) }
{
    table
        .keys()
        .all(|key| is_among(VECTOR_KEYS.as_slice(), key.as_str()))
}

/// The key of a vector.
fn vector_key(number: u8) -> &'static str
    requires { number < 16 }
    ensures { result.now ≡ slice_index_or rows.vector_keys number [] }
{
    VECTOR_KEYS[number as usize]
}

/// The name at a vector's key, if the key is there.
fn vector_at(
    alloc: Global,
    table: &Table,
    number: u8,
    key: &str,
    spot: Spot,
) -> Result<Option<VectorName>, LayoutFault>
    ensures { ReadsAs vector_list result (rows.vector_at spot (table_view table.now) number key.now) }
{
    match value_at(table, key) {
        Some(value) => {
            let name = string(alloc, value, spot)?;
            Ok(Some(VectorName {
                vector: number,
                name,
            }))
        }
        None => Ok(None),
    }
}

/// The names in a table of vectors.
fn named_vectors(alloc: Global, table: &Table, spot: Spot) -> Result<Vec<VectorName>, LayoutFault>
    ensures { ReadsAs vectors_of result (rows.named_vectors spot (table_view table.now)) }
{
    let mut vectors = Vec::new(alloc);
    for number in 0..16u8 {
        let vector = vector_at(alloc, table, number, vector_key(number), spot)?;
        match vector {
            Some(named) => vectors.push(named)?,
            None => (),
        }
    }
    Ok(vectors)
}

/// Refuses a table with a key that is no vector's.
#[tactic(auto, using(crate::proofs::RowLemmas::keys_seen))]
fn known_vectors(table: &Table) -> Result<(), LayoutFault>
    ensures { result ≡ rows.known (rows.all_keys rows.is_vector_key (table_view table.now)) None }
{
    known(has_vector_keys(table), None)
}

/// The names in a table of vectors alone.
fn vectors_in(alloc: Global, table: &Table, spot: Spot) -> Result<Vec<VectorName>, LayoutFault>
    ensures { ReadsAs vectors_of result (rows.vectors_in spot (table_view table.now)) }
{
    known_vectors(table)?;
    named_vectors(alloc, table, spot)
}

/// The row of the vectors, in rising order.
pub fn vectors(alloc: Global, table: &Table, spot: Spot) -> Result<Vec<VectorName>, LayoutFault>
    ensures { ReadsAs vectors_of result (rows.vectors spot (table_view table.now)) }
{
    match member_at(table, spot) {
        None => Ok(Vec::new(alloc)),
        Some(value) => vectors_in(alloc, inner_table(value, spot)?, spot),
    }
}

/// The value as a table.
fn inner_table(value: &Value, spot: Spot) -> Result<&Table, LayoutFault>
    ensures { map_ok (λ t. table_view t.now) result ≡ rows.inner_table spot (view value.now) }
{
    value.as_table().ok_or(LayoutFault::WrongKind { spot })
}

/// The values of an array, each a table.
fn inner_tables(alloc: Global, items: &[Value], spot: Spot) -> Result<Vec<&Table>, LayoutFault>
    ensures { ReadsAs table_members result (rows.inner_tables spot (rows.item_list (items_view items.now))) }
{
    let mut found = Vec::new(alloc);
    for item in items {
        found.push(inner_table(item, spot)?)?;
    }
    Ok(found)
}

/// The row of the modules' tables, at most `most` of them.
pub fn tables(
    alloc: Global,
    table: &Table,
    spot: Spot,
    most: usize,
) -> Result<Vec<&Table>, LayoutFault>
    ensures tables { ReadsAs table_members result (rows.tables spot most (table_view table.now)) }
    ensures few { IfOk result (λ v. length v.items ≤ most) }
{
    let Some(value) = member_at(table, spot) else {
        return Ok(Vec::new(alloc));
    };
    let items = value.as_array().ok_or(LayoutFault::WrongKind { spot })?;
    let found = inner_tables(alloc, items.as_slice(), spot)?;
    if found.as_slice().len() > most {
        return Err(LayoutFault::TooMany { spot });
    }
    Ok(found)
}
