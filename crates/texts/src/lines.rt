//! The lines of a text.
ghost use Rattle.std.specs.Prelude.{◌≡◌, ◌⊎◌, ◌<◌, ◌++◌, ◌∷◌, [], length, position, IfSome, IfNone};
ghost use Rattle.texts.specs.Lines.{is_line_feed, ended_lines, unended, lines_of};

/// The first line without its LF, and the rest of the text; `None` if there is no LF.
pub fn split_line(text: &[u8]) -> Option<(&[u8], &[u8])>
    ensures cut { IfSome result (λ parts. text.now ≡ parts.0.now ++ 10 ∷ parts.1.now) }
    ensures lines { IfSome result (λ parts. ended_lines text.now ≡ parts.0.now ∷ ended_lines parts.1.now) }
    ensures behind { IfSome result (λ parts. unended text.now ≡ unended parts.1.now) }
    ensures no_line { IfNone result (ended_lines text.now ≡ []) }
    ensures whole { IfNone result (unended text.now ≡ text.now) }
{
    match line_end(text) {
        None => None,
        Some(end) => Some((&text[..end], &text[end + 1..])),
    }
}

// The place of the first LF.
fn line_end(text: &[u8]) -> Option<usize>
    ensures { result ≡ position is_line_feed text.now }
{
    text.iter().position(|byte| *byte == b'\n')
}

/// The first line without its LF, and the rest of the text. The last line may lack its LF. `None` if the text is empty.
pub fn next_line(text: &[u8]) -> Option<(&[u8], &[u8])>
    ensures cut { IfSome result (λ parts. (text.now ≡ parts.0.now ++ 10 ∷ parts.1.now)
        ⊎ ((text.now ≡ parts.0.now) × (parts.1.now ≡ []))) }
    ensures lines { IfSome result (λ parts. lines_of text.now ≡ parts.0.now ∷ lines_of parts.1.now) }
    ensures shorter { IfSome result (λ parts. length parts.1.now < length text.now) }
    ensures no_line { IfNone result (lines_of text.now ≡ []) }
    ensures end { IfNone result (text.now ≡ []) }
{
    if text.is_empty() {
        return None;
    }
    match split_line(text) {
        None => Some((text, &[])),
        Some(parts) => Some(parts),
    }
}
