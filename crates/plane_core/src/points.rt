ghost use Rattle.std.specs.Prelude.{◌≡◌, ◌↔◌, IsNone, IfSome, ◌*◌, ◌≤◌, ◌^◌, ℤ, pos, unsigned_abs};
ghost use Rattle.spec_space.specs.Points.{value};
ghost use Rattle.plane_core.specs.Views.{plane_of, point_of};
ghost use Rattle.plane_core.specs.Planes.{sign_of, normals_det, IsCommonPoint, value_at};

use crate::numbers::{Corner, Plane, RawCorner};

/// Where a point lies at a plane.
#[derive(Clone, Copy, PartialEq, Eq, Debug)]
pub enum Sign {
    /// In front of the plane: `ax + by + cz > dw`.
    Front,
    /// On the plane.
    On,
    /// Behind the plane: `ax + by + cz < dw`.
    Back,
}

/// The value of the plane at the point of four numbers, above 0 in front and below 0 behind: of a size of at most
/// 24 * 2^122.
pub(crate) fn side_number(p: &Plane, x: i128, y: i128, z: i128, w: i128) -> i128
    requires x_small { unsigned_abs x ≤ 6 * 2 ^ 96 }
    requires y_small { unsigned_abs y ≤ 6 * 2 ^ 96 }
    requires z_small { unsigned_abs z ≤ 6 * 2 ^ 96 }
    requires w_small { unsigned_abs w ≤ 6 * 2 ^ 78 }
    ensures value { result ≡ value_at (plane_of p.now) x y z w }
    ensures size { unsigned_abs result ≤ 24 * 2 ^ 122 }
{
    p.a * x + p.b * y + p.c * z - p.d * w
}

/// The side that a value stands for.
pub(crate) fn sign_of_number(number: i128) -> Sign
    ensures value { result ≡ sign_of number }
{
    if number > 0 {
        Sign::Front
    } else if number < 0 {
        Sign::Back
    } else {
        Sign::On
    }
}

/// Where the corner lies at the plane: the exact sign of `ax + by + cz - dw`, computed within 128 bits.
pub fn side(p: &Plane, c: &Corner) -> Sign
    ensures value { result ≡ sign_of (value (plane_of p.now) (point_of c.now)) }
{
    let number = side_number(p, c.x, c.y, c.z, c.w);
    sign_of_number(number)
}

/// The one common point of three planes, or `None` exactly where their normals are dependent: then the planes have no
/// common point, or a line of them, or more.
pub fn meet(p: &Plane, q: &Plane, r: &Plane) -> Option<Corner>
    ensures dependent { IsNone result ↔ (normals_det p.now q.now r.now ≡ pos 0) }
    ensures common { IfSome result (IsCommonPoint p.now q.now r.now) }
{
    match RawCorner::of_planes(p, q, r) {
        Some(corner) => Some(corner.reduced()),
        None => None,
    }
}
