// Pairs `rN=HHHH` of a command line: a register, and the value that it begins with.
ghost use Rattle.std.specs.Prelude.{◌≡◌, ◌≤◌, ◌+◌, IfOk, length, map, option_map};
ghost use Rattle.sm_cli.specs.Pairs as spec;

use sm_words::{CG, Core, PC};
use std::alloc::{AllocError, Global};
use texts::{read_decimal, read_hex_word};

/// The highest number of a register.
const LAST_REGISTER: u64 = 15;

/// What the name of a register begins with.
const REGISTER_LETTER: u8 = b'r';

/// What stands before a value.
const EQUALS: u8 = b'=';

/// The length of `=` and four digits.
const VALUE_LENGTH: usize = 5;

// What the rules say of them: a changed number is refused here.
const _: () = prove!(
    LAST_REGISTER == 15 && REGISTER_LETTER == 114 && EQUALS == 61 && VALUE_LENGTH == 5
);

/// A register by its number, which is neither PC's nor the constant generator's, and a value.
#[derive(Clone, Copy)]
pub struct Pair {
    pub number: u8,
    pub value: u16,
}

/// The pairs, where each word is one and no register is named twice.
pub fn pairs_in(alloc: Global, words: &[&str]) -> Result<Option<Vec<Pair>>, AllocError>
    ensures { IfOk result (λ o. option_map (λ pairs. pairs.items) o ≡ spec.pairs_in (map (λ w. w.now) words.now)) }
{
    match pairs_of(alloc, words)? {
        Some(pairs) => Ok(if_different(pairs)),
        None => Ok(None),
    }
}

fn if_different(pairs: Vec<Pair>) -> Option<Vec<Pair>>
    ensures { option_map (λ pairs. pairs.items) result ≡ spec.if_different pairs.items }
{
    if are_different(pairs.as_slice()) {
        Some(pairs)
    } else {
        None
    }
}

// The pairs, where each word is one.
fn pairs_of(alloc: Global, words: &[&str]) -> Result<Option<Vec<Pair>>, AllocError>
    ensures { IfOk result (λ o. option_map (λ pairs. pairs.items) o ≡ spec.pairs_of (map (λ w. w.now) words.now)) }
{
    let mut pairs = Vec::new(alloc);
    for word in words {
        match read_pair(word) {
            Some(pair) => pairs.push(pair)?,
            None => return Ok(None),
        }
    }
    Ok(Some(pairs))
}

fn read_pair(word: &str) -> Option<Pair>
    ensures { result ≡ spec.read_pair word.now }
{
    let bytes = word.as_bytes();
    if bytes.len() < VALUE_LENGTH {
        return None;
    }
    pair_at(bytes.len() - VALUE_LENGTH, bytes)
}

// The pair whose value begins at this place.
fn pair_at(place: usize, word: &[u8]) -> Option<Pair>
    requires { place + 1 ≤ length word.now }
    ensures { result ≡ spec.pair_at place word.now }
{
    if word[place] != EQUALS {
        return None;
    }
    let number = register_named(&word[..place])?;
    let value = read_hex_word(&word[place + 1..])?;
    Some(Pair { number, value })
}

// The register of that name, which a pair may name.
fn register_named(name: &[u8]) -> Option<u8>
    ensures { result ≡ spec.register_named name.now }
{
    match name {
        [REGISTER_LETTER, digits @ ..] => match read_decimal(digits, LAST_REGISTER) {
            Some(number) => free(number as u8),
            None => None,
        },
        _ => None,
    }
}

fn free(number: u8) -> Option<u8>
    ensures { result ≡ spec.free number }
{
    if number == PC || number == CG {
        None
    } else {
        Some(number)
    }
}

fn names_register(number: u8, pairs: &[Pair]) -> bool
    ensures { result ≡ spec.names_register number pairs.now }
{
    pairs.iter().any(|pair| pair.number == number)
}

// Whether no register is named twice.
fn are_different(pairs: &[Pair]) -> bool
    ensures { result ≡ spec.are_different pairs.now }
{
    for place in 0..pairs.len() {
        if names_register(pairs[place].number, &pairs[place + 1..]) {
            return false;
        }
    }
    true
}

/// The registers with these values; all others are 0.
///
/// A register keeps of its value what it can hold.
pub fn core_with(pairs: &[Pair]) -> Core
    ensures { result ≡ spec.core_with pairs.now }
{
    let mut core = Core::new([0; 16]);
    for pair in pairs {
        core.put(pair.number, pair.value);
    }
    core
}
