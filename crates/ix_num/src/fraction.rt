ghost use Rattle.std.specs.Prelude.{◌≡◌, ◌*◌, ◌<◌, pos, ◌<ℤ◌};
ghost use Rattle.std.specs.Ordering.{MatchOrdering};
ghost use Rattle.spec_num.specs.Fractions.{fraction_cmp};

use std::cmp::Ordering;

/// The order of the fractions `a / b` and `c / d`. Both of their products `a * d` and `c * b` may pass
/// 128 bits, so the whole parts are compared, then the whole parts of what is left, turned round,
/// and so on (continued fractions). No memory is taken.
pub fn compare_fractions(a: i128, b: i128, c: i128, d: i128) -> Ordering
    requires first { pos 0 <ℤ b }
    requires second { pos 0 <ℤ d }
    ensures { result ≡ fraction_cmp a b c d }
{
    let (first, second) = (b.unsigned_abs(), d.unsigned_abs());
    match (a < 0, c < 0) {
        (false, false) => compare_sizes(a.unsigned_abs(), first, c.unsigned_abs(), second),
        (false, true) => Ordering::Greater,
        (true, false) => Ordering::Less,
        (true, true) => compare_sizes(c.unsigned_abs(), second, a.unsigned_abs(), first),
    }
}

/// The order of `a / b` and `c / d`. Where the whole parts are equal it is that of `(a % b) / b` and
/// `(c % d) / d`, and so that of `d / (c % d)` and `b / (a % b)`.
fn compare_sizes(a: u128, b: u128, c: u128, d: u128) -> Ordering
    requires first { 0 < b }
    requires second { 0 < d }
    ensures { MatchOrdering result (a * d < c * b) (a * d ≡ c * b) (c * b < a * d) }
{
    match (a / b).cmp(&(c / d)) {
        Ordering::Less => Ordering::Less,
        Ordering::Greater => Ordering::Greater,
        Ordering::Equal => {
            let (first, second) = (a % b, c % d);
            if first == 0 || second == 0 {
                return first.cmp(&second);
            }
            compare_sizes(d, second, b, first)
        }
    }
}
