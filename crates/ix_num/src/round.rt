ghost use Rattle.std.specs.Prelude.{◌≡◌, ◌≤◌, ◌^◌, pos, ◌≤ℤ◌, ◌<ℤ◌, ◌*ℤ◌, ◌+ℤ◌, unsigned_abs};
ghost use Rattle.spec_num.specs.Rounding.{round_of};

/// The fraction `a / b` rounded to the nearest whole number, a half rounded up, below zero too
/// (a rule of this project): the floor of `(2a + b) / (2b)`.
pub fn round_div(a: i128, b: i128) -> i128
    requires size { unsigned_abs a ≤ 2 ^ 125 }
    requires positive { pos 0 <ℤ b }
    requires small { b ≤ℤ pos (2 ^ 62) }
    ensures value { result ≡ round_of a b }
    // The same as two bounds: twice the answer is at most one away from twice the fraction.
    ensures low { (pos 2 *ℤ b *ℤ result) ≤ℤ (pos 2 *ℤ a +ℤ b) }
    ensures high { (pos 2 *ℤ a +ℤ b) <ℤ (pos 2 *ℤ b *ℤ result +ℤ pos 2 *ℤ b) }
{
    (2 * a + b).div_euclid(2 * b)
}
