//! The laws of texts, each the contract of a function that does nothing.
ghost use Rattle.texts.specs.Laws.{DecimalsAreRead, DigitsAreCounted, BytesAreRead, WordsAreRead, KeysAreRead, TextsAreLines, LinesAreRead};

/// A decimal is read exactly where it is the text of a number up to the bound, and its digits tell its size.
pub fn one_decimal()
    ensures read { DecimalsAreRead }
    ensures digits { DigitsAreCounted }
{}

/// Digits are read exactly where they are the text of a byte, a word, a key.
pub fn one_hexadecimal()
    ensures bytes { BytesAreRead }
    ensures words { WordsAreRead }
    ensures keys { KeysAreRead }
{}

/// A text is its lines, and lines without LF are read back.
pub fn one_cut()
    ensures texts { TextsAreLines }
    ensures read { LinesAreRead }
{}
