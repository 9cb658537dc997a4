ghost use Rattle.std.specs.Prelude.{◌≡◌, ◌≢◌, ◌<◌, ◌≤◌, ◌+◌, ◌*◌, ◌^◌, ℕ, ℤ, ◌∷◌, ◌++◌, take, drop, length, true, Some, MatchOption};
ghost use Rattle.std.specs.List.{list_all};
ghost use Rattle.std.specs.Char.{is_ascii_digit};
ghost use Rattle.std.specs.Fmt.{decimal, signed_decimal};
ghost use Rattle.spec_page.specs.Lines.{six_digits, size_in_metres, metres};
ghost use Rattle.obj_lines.specs.Templates.{is_end, IsFrontOf, HasNoFront, IsSize, IsWord, IsSigned, IsWithoutMinus};

use itoa::Buffer;

/// Where the digits at the front of a text end.
fn digits_end(text: &[u8]) -> usize
    ensures within { result ≤ length text.now }
    ensures digits { list_all is_ascii_digit (take result text.now) ≡ true }
    ensures end { is_end (drop result text.now) ≡ true }
{
    for (i, byte) in text.iter().enumerate() {
        if !byte.is_ascii_digit() {
            return i;
        }
    }
    text.len()
}

/// The number of some digits, which may have zeros before it.
fn parsed(digits: &[u8]) -> Option<u128>
    ensures { (n : ℕ) → n < 2 ^ 128 → decimal n ≡ digits.now → result ≡ Some n }
{
    match std::str::from_utf8(digits) {
        Ok(text) => text.parse::<u128>().ok(),
        Err(_) => None,
    }
}

/// The number that is spelled so, if there is one.
fn number_of(digits: &[u8]) -> Option<u128>
    ensures { MatchOption result ((n : ℕ) → n < 2 ^ 128 → decimal n ≢ digits.now) (λ n. decimal n ≡ digits.now) }
{
    let number = parsed(digits)?;
    let mut buffer = Buffer::new();
    if buffer.format(number).as_bytes() == digits {
        Some(number)
    } else {
        None
    }
}

/// The size at the front of a text, and what is behind it.
pub(crate) fn size(text: &[u8]) -> Option<(u128, &[u8])>
    ensures { MatchOption result (HasNoFront decimal IsSize text.now) (λ found. IsFrontOf decimal IsSize text.now found.0 found.1.now) }
{
    let (digits, rest) = text.split_at(digits_end(text));
    let number = number_of(digits)?;
    Some((number, rest))
}

/// Whether a text begins with a minus, and what is behind it.
fn without_minus(text: &[u8]) -> (bool, &[u8])
    ensures { IsWithoutMinus text.now result.0 result.1.now }
{
    match text {
        [b'-', rest @ ..] => (true, rest),
        _ => (false, text),
    }
}

/// The number of this sign and size, if it has 128 bits; 0 has no minus.
fn with_sign(negative: bool, size: u128) -> Option<i128>
    ensures { MatchOption result ((n : ℤ) → IsWord n → IsSigned negative size n → ⊥) (λ n. IsWord n × IsSigned negative size n) }
{
    if !negative {
        return if size < 1 << 127 {
            Some(size as i128)
        } else {
            None
        };
    }
    if size == 0 || size > 1 << 127 {
        return None;
    }
    Some(-1 - (size - 1) as i128)
}

/// The whole number at the front of a text, and what is behind it.
pub(crate) fn whole(text: &[u8]) -> Option<(i128, &[u8])>
    ensures { MatchOption result (HasNoFront signed_decimal IsWord text.now) (λ found. IsFrontOf signed_decimal IsWord text.now found.0 found.1.now) }
{
    let (negative, sizes) = without_minus(text);
    let (size, rest) = size(sizes)?;
    let number = with_sign(negative, size)?;
    Some((number, rest))
}

/// Whether each byte of a text is a digit.
fn are_digits(text: &[u8]) -> bool
    ensures { result ≡ list_all is_ascii_digit text.now }
{
    text.iter().all(|byte| byte.is_ascii_digit())
}

/// The number of six digits.
fn number_of_six(digits: [u8; 6]) -> Option<u128>
    ensures { MatchOption result ((n : ℕ) → n < 10 ^ 6 → six_digits n ≢ digits) (λ n. (n < 10 ^ 6) × (six_digits n ≡ digits)) }
{
    if !are_digits(&digits) {
        return None;
    }
    let [a, b, c, d, e, f] = digits;
    let high = (a - b'0') as u128 * 100_000
        + (b - b'0') as u128 * 10_000
        + (c - b'0') as u128 * 1000;
    let low = (d - b'0') as u128 * 100 + (e - b'0') as u128 * 10 + (f - b'0') as u128;
    Some(high + low)
}

/// The number of the six digits behind a point at the front of a text, and what is behind them.
fn part(text: &[u8]) -> Option<(u128, &[u8])>
    ensures { MatchOption result (HasNoFront (λ n. 46 ∷ six_digits n) (λ n. n < 10 ^ 6) text.now)
        (λ found. IsFrontOf (λ n. 46 ∷ six_digits n) (λ n. n < 10 ^ 6) text.now found.0 found.1.now) }
{
    let [b'.', a, b, c, d, e, f, rest @ ..] = text else {
        return None;
    };
    if digits_end(rest) > 0 {
        return None;
    }
    let number = number_of_six([*a, *b, *c, *d, *e, *f])?;
    Some((number, rest))
}

/// The micrometres of whole metres and a part of one, below 2^128.
fn joined(whole: u128, part: u128) -> Option<u128>
    ensures { MatchOption result (2 ^ 128 ≤ whole * 1000000 + part) (λ n. n ≡ whole * 1000000 + part) }
{
    whole.checked_mul(1_000_000)?.checked_add(part)
}

/// The size in metres at the front of a text, in micrometres, and what is behind it.
fn size_in_metres(text: &[u8]) -> Option<(u128, &[u8])>
    ensures { MatchOption result (HasNoFront size_in_metres IsSize text.now) (λ found. IsFrontOf size_in_metres IsSize text.now found.0 found.1.now) }
{
    let (whole, point) = size(text)?;
    let (part, rest) = part(point)?;
    let size = joined(whole, part)?;
    Some((size, rest))
}

/// The metres at the front of a text, in micrometres, and what is behind them.
pub(crate) fn metres(text: &[u8]) -> Option<(i128, &[u8])>
    ensures { MatchOption result (HasNoFront metres IsWord text.now) (λ found. IsFrontOf metres IsWord text.now found.0 found.1.now) }
{
    let (negative, sizes) = without_minus(text);
    let (size, rest) = size_in_metres(sizes)?;
    let number = with_sign(negative, size)?;
    Some((number, rest))
}
