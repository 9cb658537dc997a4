ghost use Rattle.std.specs.Prelude.{◌≡◌, ◌++◌, ◌∷◌, MatchOption};
ghost use Rattle.spec_check.specs.Grammar.{IsLine};

/// The first line of a text, without its line feed, and what stands behind it; `None` exactly where there is no line feed.
pub(crate) fn next_line(text: &[u8]) -> Option<(&[u8], &[u8])>
    ensures { MatchOption result (IsLine text.now)
        (λ cut. IsLine cut.0.now × (text.now ≡ cut.0.now ++ 10 ∷ cut.1.now)) }
{
    for (place, byte) in text.iter().enumerate() {
        if *byte == b'\n' {
            return Some((&text[..place], &text[place + 1..]));
        }
    }
    None
}
