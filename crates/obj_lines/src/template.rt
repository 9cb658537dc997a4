ghost use Rattle.std.specs.Prelude.{◌≡◌, ◌≢◌, ◌≤◌, ◌∷◌, List, ℕ, true, MatchOption};
ghost use Rattle.obj_lines.specs.Templates.{is_place, numeral, IsFrontOf, HasNoFront, IsWord, place_count, is_template, IsFilledBy, IsNotFilled};

use crate::numbers::{metres, whole};

/// Whether a byte of a template stands for a number.
fn is_place(byte: u8) -> bool
    ensures { result ≡ is_place byte }
{
    byte == b'@' || byte == b'~'
}

/// The number at the front of a text as the place spells it, and what is behind it.
fn numeral(place: u8, text: &[u8]) -> Option<(i128, &[u8])>
    ensures { MatchOption result (HasNoFront (numeral place) IsWord text.now) (λ found. IsFrontOf (numeral place) IsWord text.now found.0 found.1.now) }
{
    if place == b'@' {
        whole(text)
    } else {
        metres(text)
    }
}

/// What is behind this byte.
pub(crate) fn behind(byte: u8, text: &[u8]) -> Option<&[u8]>
    ensures { MatchOption result ((more : List ℕ) → byte ∷ more ≢ text.now) (λ rest. byte ∷ rest.now ≡ text.now) }
{
    match text {
        [first, rest @ ..] if *first == byte => Some(rest),
        _ => None,
    }
}

/// The numbers in the places of the template, if a text is that of the template: `@` stands for a whole number, `~` for
/// micrometres as metres, and each other byte for itself.
pub(crate) fn scan<const N: usize>(text: &[u8], template: &[u8]) -> Option<[i128; N]>
    requires apart { is_template template.now ≡ true }
    requires places { place_count template.now ≡ N }
    requires few { N ≤ 12 }
    ensures { MatchOption result (IsNotFilled template.now text.now N) (IsFilledBy template.now text.now N) }
{
    let mut numbers = [0; N];
    let mut rest = text;
    let mut count = 0;
    for sign in template {
        if is_place(*sign) {
            let (number, more) = numeral(*sign, rest)?;
            numbers[count] = number;
            count += 1;
            rest = more;
        } else {
            rest = behind(*sign, rest)?;
        }
    }
    if rest.is_empty() { Some(numbers) } else { None }
}
