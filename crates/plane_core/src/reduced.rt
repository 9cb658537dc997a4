ghost use Rattle.std.specs.Prelude.{◌≡◌, ◌≢◌, ◌*◌, ◌≤◌, ◌^◌, ◌↔◌, ℕ, pos, IsNone, IfNone, IfSome, IsTrue, unsigned_abs};
ghost use Rattle.plane_core.specs.Numbers.{AreCoprime, IsGcdOfFour, IsSmallOver, leads_positive};
ghost use Rattle.plane_core.specs.Planes.{IsReductionOf};

use crate::numbers::Plane;
use crate::reduce::{common_divisor, quotient};

/// Whether the first of three numbers that is not 0 is positive.
fn leads(a: i128, b: i128, c: i128) -> bool
    ensures { result ≡ leads_positive a b c }
{
    if a != 0 {
        a > 0
    } else if b != 0 {
        b > 0
    } else {
        c > 0
    }
}

/// The plane of four reduced numbers, or of their opposites.
fn oriented(a: i128, b: i128, c: i128, d: i128) -> Plane
    requires a_small { unsigned_abs a ≤ 2 ^ 26 }
    requires b_small { unsigned_abs b ≤ 2 ^ 26 }
    requires c_small { unsigned_abs c ≤ 2 ^ 26 }
    requires d_small { unsigned_abs d ≤ 2 ^ 44 }
    requires coprime { AreCoprime a b c d }
    requires some { (a ≡ pos 0) × (b ≡ pos 0) × (c ≡ pos 0) → ⊥ }
    ensures reduction { IsReductionOf result a b c d }
{
    if leads(a, b, c) {
        return Plane { a, b, c, d };
    }
    Plane {
        a: -a,
        b: -b,
        c: -c,
        d: -d,
    }
}

/// Whether four numbers have the sizes of a plane.
fn are_small(a: i128, b: i128, c: i128, d: i128) -> bool
    ensures { IsTrue result ↔ IsSmallOver 1 a b c d }
{
    let normal = 1u128 << 26;
    a.unsigned_abs() <= normal
        && b.unsigned_abs() <= normal
        && c.unsigned_abs() <= normal
        && d.unsigned_abs() <= 1u128 << 44
}

impl Plane {
    /// The plane `ax + by + cz = d` in grid steps, reduced, or `None` exactly where the reduced numbers pass the bounds of a
    /// plane. The sizes of the four are at most 2^70, and a, b, c are not all 0.
    pub fn reduced(a: i128, b: i128, c: i128, d: i128) -> Option<Plane>
        requires a_small { unsigned_abs a ≤ 2 ^ 70 }
        requires b_small { unsigned_abs b ≤ 2 ^ 70 }
        requires c_small { unsigned_abs c ≤ 2 ^ 70 }
        requires d_small { unsigned_abs d ≤ 2 ^ 70 }
        requires some { (a ≡ pos 0) × (b ≡ pos 0) × (c ≡ pos 0) → ⊥ }
        ensures taken { IfSome result (λ p. IsReductionOf p a b c d) }
        ensures too_large { IfNone result ((g : ℕ) → IsGcdOfFour a b c d g → IsSmallOver g a b c d → ⊥) }
    {
        let divisor = common_divisor(a, b, c, d);
        let p = quotient(a, divisor);
        let q = quotient(b, divisor);
        let r = quotient(c, divisor);
        let s = quotient(d, divisor);
        if are_small(p, q, r, s) {
            Some(oriented(p, q, r, s))
        } else {
            None
        }
    }
}
