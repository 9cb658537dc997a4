ghost use Rattle.std.specs.Prelude.{◌≡◌, ◌≤◌, ◌*◌, ◌^◌, ◌+ℤ◌, ◌*ℤ◌, neg_ℤ, unwrap_or, unsigned_abs, map, All, Some};
ghost use Rattle.spec_num.specs.Rounding.{round_of};
ghost use Rattle.spec_place.specs.Vectors.{IsWithin, along_x, one};
ghost use Rattle.spec_place.specs.Axes.{plane_point};
ghost use Rattle.spec_shape.specs.Profiles.{placed_loops};
ghost use Rattle.ix_profile.specs.Outlines.{AreWithin, IsOutline};

use crate::loops::{Loop, Loops};
use ix_num::round_div;
use ix_place::Dir;
use spec_space::Vector;

/// 1, for what is counted in units of 10^-9.
const ONE: i128 = 1_000_000_000;

/// The direction of the first axis, which is x where it is unset.
fn first_axis(ref_dir: Option<Dir>) -> Vector
    ensures value { result ≡ unwrap_or ref_dir along_x }
    ensures within { IsWithin (10 ^ 9) result }
{
    match ref_dir {
        Some(direction) => direction.v,
        None => Vector { x: ONE, y: 0, z: 0 },
    }
}

fn opposite(n: i128) -> i128
    requires { unsigned_abs n ≤ 10 ^ 9 }
    ensures value { result ≡ neg_ℤ n }
    ensures within { unsigned_abs result ≤ 10 ^ 9 }
{
    -n
}

/// One part of two coordinates along two axes, by the same part of the axes.
fn along(first: i128, x: i128, second: i128, y: i128) -> i128
    requires first { unsigned_abs first ≤ 10 ^ 9 }
    requires x { unsigned_abs x ≤ 10 ^ 16 }
    requires second { unsigned_abs second ≤ 10 ^ 9 }
    requires y { unsigned_abs y ≤ 10 ^ 16 }
    ensures value { result ≡ round_of (first *ℤ x +ℤ second *ℤ y) one }
    ensures within { unsigned_abs result ≤ 2 * 10 ^ 16 }
{
    round_div(first * x + second * y, ONE)
}

/// The same, from a place on.
fn along_from(at: i128, first: i128, x: i128, second: i128, y: i128) -> i128
    requires at { unsigned_abs at ≤ 10 ^ 16 }
    requires first { unsigned_abs first ≤ 10 ^ 9 }
    requires x { unsigned_abs x ≤ 10 ^ 16 }
    requires second { unsigned_abs second ≤ 10 ^ 9 }
    requires y { unsigned_abs y ≤ 10 ^ 16 }
    ensures value { result ≡ at +ℤ round_of (first *ℤ x +ℤ second *ℤ y) one }
    ensures within { unsigned_abs result ≤ 3 * 10 ^ 16 }
{
    at + along(first, x, second, y)
}

/// The point whose coordinates along the axes are those of p.
fn placed_point(p: &Vector, at: &Vector, axis: &Vector) -> Vector
    requires point { IsWithin (10 ^ 16) p.now }
    requires place { IsWithin (10 ^ 16) at.now }
    requires axis { IsWithin (10 ^ 9) axis.now }
    ensures value { result ≡ plane_point at.now (Some axis.now) p.now.x p.now.y }
    ensures within { IsWithin (3 * 10 ^ 16) result }
{
    Vector {
        x: along_from(at.x, axis.x, p.x, opposite(axis.y), p.y),
        y: along_from(at.y, axis.y, p.x, axis.x, p.y),
        z: at.z,
    }
}

/// Places each of the points.
fn place_points(points: &mut [Vector], at: &Vector, axis: &Vector)
    requires points { All (IsWithin (10 ^ 16)) points.old }
    requires place { IsWithin (10 ^ 16) at.now }
    requires axis { IsWithin (10 ^ 9) axis.now }
    ensures value { points.new ≡ map (λ p. plane_point at.now (Some axis.now) p.x p.y) points.old }
    ensures within { All (IsWithin (3 * 10 ^ 16)) points.new }
{
    for p in points.iter_mut() {
        *p = placed_point(p, at, axis);
    }
}

fn place_loop(placed: &mut Loop, at: &Vector, axis: &Vector)
    requires points { All (IsWithin (10 ^ 16)) placed.old }
    requires place { IsWithin (10 ^ 16) at.now }
    requires axis { IsWithin (10 ^ 9) axis.now }
    ensures value { placed.new ≡ map (λ p. plane_point at.now (Some axis.now) p.x p.y) placed.old }
    ensures within { All (IsWithin (3 * 10 ^ 16)) placed.new }
{
    place_points(&mut placed.points, at, axis);
}

/// Places each of the loops.
fn place_loops(loops: &mut [Loop], at: &Vector, axis: &Vector)
    requires loops { AreWithin (10 ^ 16) loops.old }
    requires place { IsWithin (10 ^ 16) at.now }
    requires axis { IsWithin (10 ^ 9) axis.now }
    ensures value { loops.new ≡ placed_loops at.now (Some axis.now) loops.old }
    ensures within { AreWithin (3 * 10 ^ 16) loops.new }
{
    for placed in loops.iter_mut() {
        place_loop(placed, at, axis);
    }
}

fn placed_along(mut loops: Loops, at: &Vector, axis: &Vector) -> Loops
    requires loops { AreWithin (10 ^ 16) loops }
    requires place { IsWithin (10 ^ 16) at.now }
    requires axis { IsWithin (10 ^ 9) axis.now }
    ensures value { result ≡ placed_loops at.now (Some axis.now) loops }
    ensures within { AreWithin (3 * 10 ^ 16) result }
{
    place_loops(&mut loops.loops, at, axis);
    loops
}

impl Loops {
    /// The loops of a profile where they stand in axes in its plane (IfcAxis2Placement2D): at a place in nanometres, with
    /// the first axis along the reference direction, x where it is unset, and the second a quarter turn to its left. The
    /// sizes of all coordinates are at most 10^16. Takes no memory.
    pub fn placed(self, at: &Vector, ref_dir: Option<Dir>) -> Loops
        requires place { IsWithin (10 ^ 16) at.now }
        requires loops { AreWithin (10 ^ 16) self }
        ensures value { result ≡ placed_loops at.now ref_dir self }
        ensures within { AreWithin (3 * 10 ^ 16) result }
        ensures outline { IsOutline (10 ^ 16) self → IsOutline (3 * 10 ^ 16) result }
    {
        placed_along(self, at, &first_axis(ref_dir))
    }
}
