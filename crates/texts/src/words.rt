//! The words of a line.
ghost use Rattle.std.specs.Prelude.{◌≡◌, ◌∷◌, [], position, IfSome, IfNone};
ghost use Rattle.texts.specs.Words.{is_space, words};

/// The offset of the first space; `None` if there is none.
pub fn first_space(text: &[u8]) -> Option<usize>
    ensures place { result ≡ position is_space text.now }
{
    text.iter().position(|byte| *byte == b' ')
}

/// The first word of a line, and the rest after its space; `None` if there is no space.
pub fn split_word(line: &[u8]) -> Option<(&[u8], &[u8])>
    ensures words { IfSome result (λ parts. words line.now ≡ parts.0.now ∷ words parts.1.now) }
    ensures whole { IfNone result (words line.now ≡ line.now ∷ []) }
{
    match first_space(line) {
        None => None,
        Some(end) => Some((&line[..end], &line[end + 1..])),
    }
}
