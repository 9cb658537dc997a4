ghost use Rattle.std.specs.Prelude.{◌≡◌, pos, ◌+ℤ◌, ◌*ℤ◌, ◌≤ℤ◌, ◌<ℤ◌, unsigned_abs};
ghost use Rattle.spec_num.specs.Roots.{whole_root};

/// The whole root: the greatest whole number whose square is at most `n` (a rule of this project).
/// No memory is taken.
pub fn whole_root(n: i128) -> i128
    requires { pos 0 ≤ℤ n }
    ensures value { result ≡ pos (whole_root (unsigned_abs n)) }
    // The same as two bounds.
    ensures low { (result *ℤ result) ≤ℤ n }
    ensures high { n <ℤ ((result +ℤ pos 1) *ℤ (result +ℤ pos 1)) }
{
    n.isqrt()
}
