ghost use Rattle.std.specs.Prelude.{◌≡◌, ℕ, ◌+◌, ◌-◌, ◌*◌, ◌^◌, ◌<◌, ◌≤◌, ◌++◌, length, take, slice_index, MatchOption};
ghost use Rattle.spec_num.specs.Decimals.{value_after, value};
ghost use Rattle.ix_num.specs.Magnitudes.{AreDigits, IsMagnitude};

/// The greatest count of units.
const LIMIT: u128 = 1_000_000_000_000_000_000_000;

/// Digits behind those of a number, unless that passes the limit.
fn grow(start: u128, digits: &[u8]) -> Option<u128>
    requires small { start ≤ 10 ^ 21 }
    requires digits { AreDigits digits.now }
    ensures { MatchOption result (10 ^ 21 < value_after start digits.now) (λ v. (v ≡ value_after start digits.now) × (v ≤ 10 ^ 21)) }
{
    let mut number = start;
    for digit in digits {
        number = number * 10 + (*digit - b'0') as u128;
        if number > LIMIT {
            return None;
        }
    }
    Some(number)
}

/// A number times a power of ten, unless that passes the limit.
fn scale(number: u128, zeros: u128) -> Option<u128>
    requires { number ≤ 10 ^ 21 }
    ensures { MatchOption result (10 ^ 21 < number * 10 ^ zeros) (λ v. (v ≡ number * 10 ^ zeros) × (v ≤ 10 ^ 21)) }
{
    if number == 0 {
        return Some(0);
    }
    let mut scaled = number;
    for _ in 0..zeros {
        scaled *= 10;
        if scaled > LIMIT {
            return None;
        }
    }
    Some(scaled)
}

/// The number of the first digits, unless it passes the limit.
fn front(ints: &[u8], fraction: &[u8], kept: usize) -> Option<u128>
    requires within { kept ≤ length ints.now + length fraction.now }
    requires ints { AreDigits ints.now }
    requires fraction { AreDigits fraction.now }
    ensures { MatchOption result (10 ^ 21 < value (take kept (ints.now ++ fraction.now)))
        (λ v. (v ≡ value (take kept (ints.now ++ fraction.now))) × (v ≤ 10 ^ 21)) }
{
    if kept <= ints.len() {
        return grow(0, &ints[..kept]);
    }
    let whole = grow(0, ints)?;
    grow(whole, &fraction[..kept - ints.len()])
}

fn digit_at(ints: &[u8], fraction: &[u8], at: usize) -> u8
    requires { at < length ints.now + length fraction.now }
    ensures { result ≡ slice_index (ints.now ++ fraction.now) at }
{
    if at < ints.len() {
        ints[at]
    } else {
        fraction[at - ints.len()]
    }
}

/// The number of all digits, without the last `cut` of them, rounded.
fn cut_off(ints: &[u8], fraction: &[u8], cut: u128) -> Option<u128>
    requires some { 0 < cut }
    requires ints { AreDigits ints.now }
    requires fraction { AreDigits fraction.now }
    ensures { IsMagnitude (value (ints.now ++ fraction.now)) (10 ^ cut) result }
{
    let total = ints.len() + fraction.len();
    if cut > total as u128 {
        return Some(0);
    }
    let kept = total - cut as usize;
    let whole = front(ints, fraction, kept)?;
    if digit_at(ints, fraction, kept) < b'5' {
        return Some(whole);
    }
    if whole == LIMIT {
        return None;
    }
    Some(whole + 1)
}

/// The number of the digits, times a power of ten and divided by one, rounded.
pub fn magnitude(ints: &[u8], fraction: &[u8], up: u128, down: u128) -> Option<u128>
    requires ints { AreDigits ints.now }
    requires fraction { AreDigits fraction.now }
    ensures { IsMagnitude (value (ints.now ++ fraction.now) * 10 ^ up) (10 ^ down) result }
{
    if up < down {
        return cut_off(ints, fraction, down - up);
    }
    let whole = front(ints, fraction, ints.len() + fraction.len())?;
    scale(whole, up - down)
}
