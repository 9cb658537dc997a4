ghost use Rattle.std.specs.Prelude.{◌≡◌, ℕ, ◌<◌, ◌^◌, pos, ◌≤ℤ◌, unsigned_abs};
ghost use Rattle.std.specs.Int.{IsGcd};

/// The greatest common divisor of the sizes of two numbers: it divides both, and each number
/// that divides both divides it. It is never negative. Of 0 and a number it is the size of that
/// number, and so of 0 and 0 it is 0.
///
/// Neither number may be the least of 128 bits, whose size has none. No memory is taken.
pub fn gcd(a: i128, b: i128) -> i128
    requires first { unsigned_abs a < 2 ^ 127 }
    requires second { unsigned_abs b < 2 ^ 127 }
    ensures sign { pos 0 ≤ℤ result }
    ensures divisor { IsGcd (unsigned_abs a) (unsigned_abs b) (unsigned_abs result) }
{
    gcd_of_sizes(a.unsigned_abs(), b.unsigned_abs()) as i128
}

fn gcd_of_sizes(a: u128, b: u128) -> u128
    ensures divisor { IsGcd a b result }
    ensures small { (n : ℕ) → a < n → b < n → result < n }
{
    let mut x = a;
    let mut y = b;
    while y != 0 {
        let rest = x % y;
        x = y;
        y = rest;
    }
    x
}
