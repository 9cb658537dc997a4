ghost use Rattle.std.specs.Prelude.{◌≡◌, ◌*◌, ◌≤◌, ◌^◌, pos, ◌<ℤ◌, unsigned_abs, IsTrue};
ghost use Rattle.plane_core.specs.Numbers.{AreCoprime, leads_positive};

/// The plane `ax + by + cz = d` in grid steps, reduced (a rule of this project): no number but 1 divides all four, and the
/// first of a, b, c that is not 0 is positive. Its front is where `ax + by + cz > d`. The sizes of a, b and c are at most
/// 2^26, and that of d at most 2^44.
#[derive(Clone, Copy, PartialEq, Eq, Hash, Debug)]
pub struct Plane {
    pub a: i128,
    pub b: i128,
    pub c: i128,
    pub d: i128,
    pub ghost a_small: { unsigned_abs a ≤ 2 ^ 26 },
    pub ghost b_small: { unsigned_abs b ≤ 2 ^ 26 },
    pub ghost c_small: { unsigned_abs c ≤ 2 ^ 26 },
    pub ghost d_small: { unsigned_abs d ≤ 2 ^ 44 },
    pub ghost coprime: { AreCoprime a b c d },
    pub ghost signed: { IsTrue (leads_positive a b c) },
}

/// The point `(x / w, y / w, z / w)` in grid steps, where three planes meet, reduced: no number but 1 divides all four, and
/// the weight w is positive. It is at most 6 * 2^78, and the sizes of the others at most 6 * 2^96.
#[derive(Clone, Copy, PartialEq, Eq, Hash, Debug)]
pub struct Corner {
    pub x: i128,
    pub y: i128,
    pub z: i128,
    pub w: i128,
    pub ghost x_small: { unsigned_abs x ≤ 6 * 2 ^ 96 },
    pub ghost y_small: { unsigned_abs y ≤ 6 * 2 ^ 96 },
    pub ghost z_small: { unsigned_abs z ≤ 6 * 2 ^ 96 },
    pub ghost w_small: { unsigned_abs w ≤ 6 * 2 ^ 78 },
    pub ghost positive: { pos 0 <ℤ w },
    pub ghost coprime: { AreCoprime x y z w },
}

/// The point `(x / w, y / w, z / w)` in grid steps, where three planes meet, as Cramer's rule gives it. It is not reduced, so
/// one point has many spellings: sides are asked of it, and it has no equality. The weight w is positive and at most
/// 6 * 2^78, and the sizes of the others are at most 6 * 2^96.
#[derive(Clone, Copy)]
pub struct RawCorner {
    pub x: i128,
    pub y: i128,
    pub z: i128,
    pub w: i128,
    pub ghost x_small: { unsigned_abs x ≤ 6 * 2 ^ 96 },
    pub ghost y_small: { unsigned_abs y ≤ 6 * 2 ^ 96 },
    pub ghost z_small: { unsigned_abs z ≤ 6 * 2 ^ 96 },
    pub ghost w_small: { unsigned_abs w ≤ 6 * 2 ^ 78 },
    pub ghost positive: { pos 0 <ℤ w },
}
