ghost use Rattle.std.specs.Prelude.{◌≡◌, ◌<◌, ◌≤◌, ◌^◌, ◌-ℤ◌, ◌*ℤ◌, length, unsigned_abs};
ghost use Rattle.spec_space.specs.Points.{value, normal, cross};
ghost use Rattle.plane_core.specs.Views.{point_of};
ghost use Rattle.exact_mesh.specs.Meshes.{numbered_plane};
ghost use Rattle.face_check.specs.Sound.{point_at};
ghost use Rattle.face_check.specs.Sizes.{IsSizedPlane};

use plane_core::Corner;
use spec_space::{Plane, Vector};

/// The plane of four numbers.
pub(crate) fn plane_of(numbers: &[i128; 4]) -> Plane
    ensures { result ≡ numbered_plane numbers.now }
{
    Plane {
        a: numbers[0],
        b: numbers[1],
        c: numbers[2],
        d: numbers[3],
    }
}

/// The value of the plane at the corner: above 0 in front, 0 on the plane, below 0 behind.
fn value(plane: &Plane, corner: &Corner) -> i128
    requires { IsSizedPlane plane.now }
    ensures { result ≡ value plane.now (point_of corner.now) }
{
    plane.a * corner.x + plane.b * corner.y + plane.c * corner.z - plane.d * corner.w
}

/// The value of the plane at the corner at a place.
pub(crate) fn value_at(corners: &[Corner], plane: &Plane, place: usize) -> i128
    requires plane { IsSizedPlane plane.now }
    requires place { place < length corners.now }
    ensures { result ≡ value plane.now (point_at corners.now place) }
{
    value(plane, &corners[place])
}

/// The difference of two products of numbers of normals.
fn minor(a: i128, b: i128, c: i128, d: i128) -> i128
    requires a { unsigned_abs a ≤ 2 ^ 26 }
    requires b { unsigned_abs b ≤ 2 ^ 26 }
    requires c { unsigned_abs c ≤ 2 ^ 26 }
    requires d { unsigned_abs d ≤ 2 ^ 26 }
    ensures { result ≡ a *ℤ b -ℤ c *ℤ d }
{
    a * b - c * d
}

/// The direction of the line in which two planes meet.
pub(crate) fn direction(first: &Plane, second: &Plane) -> Vector
    requires first { IsSizedPlane first.now }
    requires second { IsSizedPlane second.now }
    ensures { result ≡ cross (normal first.now) (normal second.now) }
{
    Vector {
        x: minor(first.b, second.c, first.c, second.b),
        y: minor(first.c, second.a, first.a, second.c),
        z: minor(first.a, second.b, first.b, second.a),
    }
}
