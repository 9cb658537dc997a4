ghost use Rattle.std.specs.Prelude.{◌≡◌, ℕ, ◌≤◌, ◌<◌, ◌^◌, ◌==◌, length, min, MatchOption, MatchResult};
ghost use Rattle.std.specs.List.{take_while, prefix_len};
ghost use Rattle.std.specs.Char.{is_ascii_digit};
ghost use Rattle.spec_num.specs.Decimals.{is_sign, is_exponent, is_negative, behind, digits, behind_digits, value, decimal_units, size_units, most_units};
ghost use Rattle.ix_num.specs.Magnitudes.{AreDigits};

use crate::magnitude::magnitude;
use thiserror::Error;

/// Why a decimal text has no count of units.
#[derive(Clone, Copy, Debug, Drop, PartialEq, Eq, Error)]
pub enum NumberFault {
    /// The rounded value has a size above 10^9.
    #[error("the number is too large")]
    TooLarge,
}

/// The reader of decimal texts.
pub struct Decimal;

fn count_digits(text: &[u8]) -> usize
    ensures value { result ≡ prefix_len is_ascii_digit text.now }
    ensures within { result ≤ length text.now }
{
    text.iter().take_while(|byte| byte.is_ascii_digit()).count()
}

/// The digits at the front, and what stands behind them.
fn split_digits(text: &[u8]) -> (&[u8], &[u8])
    ensures digits { result.0.now ≡ digits text.now }
    ensures rest { result.1.now ≡ behind_digits text.now }
    ensures all { AreDigits result.0.now }
{
    text.split_at(count_digits(text))
}

/// What stands behind a sign, if one stands at the front.
fn behind_sign(text: &[u8]) -> &[u8]
    ensures { result.now ≡ behind is_sign text.now }
{
    match text {
        [b'+' | b'-', rest @ ..] => rest,
        _ => text,
    }
}

/// What stands behind a point, if one stands at the front.
fn behind_point(text: &[u8]) -> &[u8]
    ensures { result.now ≡ behind (λ b. b == 46) text.now }
{
    match text {
        [b'.', rest @ ..] => rest,
        _ => text,
    }
}

/// What stands behind the letter of an exponent, if one stands at the front.
fn behind_exponent(text: &[u8]) -> &[u8]
    ensures { result.now ≡ behind is_exponent text.now }
{
    match text {
        [b'E' | b'e', rest @ ..] => rest,
        _ => text,
    }
}

fn is_negative(text: &[u8]) -> bool
    ensures { result ≡ is_negative text.now }
{
    matches!(text, [b'-', ..])
}

/// No power of ten beyond this one makes a difference to a text that fits in memory.
const FAR: u128 = 1 << 70;

/// The number of some digits, or `FAR` where it is greater.
fn capped_value(digits: &[u8]) -> u128
    requires { AreDigits digits.now }
    ensures { result ≡ min (value digits.now) (2 ^ 70) }
{
    let mut number = 0;
    for digit in digits {
        number = (number * 10 + (*digit - b'0') as u128).min(FAR);
    }
    number
}

/// The size of a text's count of units, unless it passes the limit.
fn read_size(text: &[u8]) -> Option<u128>
    ensures { MatchOption result (most_units < size_units text.now) (λ size. (size ≡ size_units text.now) × (size ≤ most_units)) }
{
    let (whole, rest) = split_digits(behind_sign(text));
    let (fraction, rest) = split_digits(behind_point(rest));
    let exponent = behind_exponent(rest);
    let (power, _) = split_digits(behind_sign(exponent));
    let power = capped_value(power);
    let places = fraction.len() as u128;
    if is_negative(exponent) {
        return magnitude(whole, fraction, 12, places + power);
    }
    magnitude(whole, fraction, 12 + power, places)
}

impl Decimal {
    /// The count of units of 10^-12 that the text of an integer or a real (ISO 10303-21) stands
    /// for: the nearest one, a half rounded up in size (a rule of this project). An exponent may
    /// have any number of digits, and its letter may be small.
    ///
    /// The form is not checked: each part of the number may be missing, and what stands behind
    /// its last part is passed over.
    ///
    /// # Errors
    ///
    /// `TooLarge` exactly where the rounded value has a size above 10^21 units, which is 10^9 (a
    /// limit of this project).
    pub fn read(text: &[u8]) -> Result<i128, NumberFault>
        ensures { MatchResult result (λ units. (units ≡ decimal_units text.now) × (size_units text.now ≤ most_units))
            (λ _. most_units < size_units text.now) }
    {
        match read_size(text) {
            None => Err(NumberFault::TooLarge),
            Some(size) if is_negative(text) => Ok(-(size as i128)),
            Some(size) => Ok(size as i128),
        }
    }
}
