//! A text, cut at its first line end.
ghost use Rattle.std.specs.Prelude.{◌≡◌, ◌==◌, ◌<◌, [], ◌∷◌, length, position, MatchOption};
ghost use Rattle.sp_listing.specs.Reading.{pieces};

fn line_end(text: &[u8]) -> Option<usize>
    ensures { result ≡ position (λ byte. byte == 10) text.now }
{
    text.iter().position(|byte| *byte == b'\n')
}

/// The first line, and what follows its line end. A text without one is its own last piece.
pub fn split_line(text: &[u8]) -> Option<(&[u8], &[u8])>
    ensures { MatchOption result (pieces text.now ≡ text.now ∷ []) (λ p. (pieces text.now ≡ p.0.now ∷ pieces p.1.now) × (length p.1.now < length text.now)) }
{
    match line_end(text) {
        Some(end) => Some((&text[..end], &text[end + 1..])),
        None => None,
    }
}
