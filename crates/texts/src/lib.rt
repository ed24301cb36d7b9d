//! Numbers as texts, the lines of a text, and the words of a line.
//!
//! Decimal numbers have no sign and no leading zero. Hexadecimal digits are in lower case, two a byte, high digit
//! first. A line ends with LF. Each number has one text, which reads back to that number: see `laws`.
#![tactic(auto)]

mod decimals;
mod hexadecimals;
pub mod laws;
mod lines;
mod words;

pub use decimals::{decimal, is_decimal, push_decimal, read_decimal};
pub use hexadecimals::{
    hex_byte, hex_key, hex_word, is_hex_digit, push_hex_byte, push_hex_word, read_hex_byte,
    read_hex_key, read_hex_word,
};
pub use lines::{next_line, split_line};
pub use words::{first_space, split_word};
