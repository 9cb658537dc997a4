ghost use Rattle.std.specs.Prelude.{◌≡◌, IfSome};
ghost use Rattle.std.specs.List.{list_all};
ghost use Rattle.std.specs.Char.{is_ascii_digit};
ghost use Rattle.ix_words.specs.Words.{is_numeral, number_of, grid_of, count_of, IsCount};

fn are_digits(text: &[u8]) -> bool
    ensures { result ≡ list_all is_ascii_digit text.now }
{
    text.iter().all(|byte| byte.is_ascii_digit())
}

/// Whether a text is a numeral: 1 to 18 digits, of which the first is not 0.
fn is_numeral(text: &[u8]) -> bool
    ensures { result ≡ is_numeral text.now }
{
    match text {
        [first, ..] => *first != b'0' && text.len() <= 18 && are_digits(text),
        [] => false,
    }
}

/// The number of a numeral.
pub(crate) fn number(text: &str) -> Option<u64>
    ensures { result ≡ number_of text.now }
{
    if is_numeral(text.as_bytes()) {
        text.parse::<u64>().ok()
    } else {
        None
    }
}

/// A grid in micrometres.
pub(crate) fn grid(text: &str) -> Option<u32>
    ensures { result ≡ grid_of text.now }
{
    match number(text) {
        Some(grid) if grid >= 1 && grid <= 10_000 => Some(grid as u32),
        _ => None,
    }
}

/// The number of walls of a generated file.
pub(crate) fn count(text: &str) -> Option<u32>
    ensures value { result ≡ count_of text.now }
    ensures range { IfSome result IsCount }
{
    match number(text) {
        Some(count) if count >= 1 && count <= 150 => Some(count as u32),
        _ => None,
    }
}
