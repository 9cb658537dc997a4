ghost use Rattle.std.specs.Prelude.{◌≡◌, ◌*◌, ◌+◌, ◌≤◌, ◌^◌, ◌-ℤ◌, ◌*ℤ◌, unsigned_abs};
ghost use Rattle.spec_space.specs.Points.{minus, cross, dot};
ghost use Rattle.spec_solid.specs.Triangles.{turn};
ghost use Rattle.spec_solid.specs.Planes.{plane_through, upright_plane};
ghost use Rattle.ray_law.specs.Ranges.{AreSteps};
ghost use Rattle.grid_solid.specs.Triangles.{triangle_of, IsNear};
ghost use Rattle.triangle_planes.specs.Sizes.{AreRuns, AreAreas};

use grid_solid::GridTriangle;
use spec_space::{Plane, Vector};

/// The way from one place to another.
fn way(to: Vector, from: Vector) -> Vector
    requires to { AreSteps to }
    requires from { AreSteps from }
    ensures value { result ≡ minus to from }
    ensures small { AreRuns result }
{
    Vector {
        x: to.x - from.x,
        y: to.y - from.y,
        z: to.z - from.z,
    }
}

/// The determinant of two rows, `(a, b)` and `(c, d)`.
fn minor(a: i128, b: i128, c: i128, d: i128) -> i128
    requires a { unsigned_abs a ≤ 2 ^ 21 }
    requires b { unsigned_abs b ≤ 2 ^ 21 }
    requires c { unsigned_abs c ≤ 2 ^ 21 }
    requires d { unsigned_abs d ≤ 2 ^ 21 }
    ensures value { result ≡ a *ℤ d -ℤ b *ℤ c }
    ensures small { unsigned_abs result ≤ 2 ^ 43 }
{
    a * d - b * c
}

/// The cross product of two ways.
fn cross(u: Vector, v: Vector) -> Vector
    requires u { AreRuns u }
    requires v { AreRuns v }
    ensures value { result ≡ cross u v }
    ensures small { AreAreas result }
{
    Vector {
        x: minor(u.y, u.z, v.y, v.z),
        y: minor(u.z, u.x, v.z, v.x),
        z: minor(u.x, u.y, v.x, v.y),
    }
}

/// The normal of a triangle: the cross product of its edges from the first corner. It is 0 where the corners lie on one
/// line.
pub(crate) fn normal(t: &GridTriangle) -> Vector
    requires near { IsNear (triangle_of t.now) }
    ensures value { result ≡ turn (triangle_of t.now) }
    ensures small { AreAreas result }
{
    cross(way(t.b, t.a), way(t.c, t.a))
}

/// The distance of a plane through a place: the dot product of its normal with the place.
fn distance(normal: Vector, place: Vector) -> i128
    requires normal { AreAreas normal }
    requires place { AreSteps place }
    ensures value { result ≡ dot normal place }
    ensures small { unsigned_abs result ≤ 2 ^ 70 }
{
    normal.x * place.x + normal.y * place.y + normal.z * place.z
}

/// The plane of a triangle.
pub(crate) fn plane_through(t: &GridTriangle, normal: Vector) -> Plane
    requires near { IsNear (triangle_of t.now) }
    requires normal { normal ≡ turn (triangle_of t.now) }
    requires small { AreAreas normal }
    ensures value { result ≡ plane_through (triangle_of t.now) }
{
    Plane {
        a: normal.x,
        b: normal.y,
        c: normal.z,
        d: distance(normal, t.a),
    }
}

/// The plane through two places that is parallel to the z axis.
pub(crate) fn upright_plane(u: Vector, v: Vector) -> Plane
    requires u { AreSteps u }
    requires v { AreSteps v }
    ensures value { result ≡ upright_plane u v }
{
    let way = way(v, u);
    Plane {
        a: way.y,
        b: -way.x,
        c: 0,
        d: minor(way.y, way.x, u.y, u.x),
    }
}
