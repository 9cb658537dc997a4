ghost use Rattle.std.specs.Prelude.{◌≡◌, ◌^◌, ◌≤◌, unsigned_abs, map, All};
ghost use Rattle.spec_solid.specs.Extrusions.{plus};
ghost use Rattle.spec_place.specs.Vectors.{IsWithin};
ghost use Rattle.spec_shape.specs.Shapes.{upwards, lifted};
ghost use Rattle.ix_profile.specs.Outlines.{AreWithin, IsOutline};

use crate::vectors::plus;
use ix_profile::{Loop, Loops};
use spec_space::Vector;

fn moved_point(by: &Vector, p: &Vector) -> Vector
    requires by { IsWithin (2 ^ 59) by.now }
    requires point { IsWithin (2 ^ 59) p.now }
    ensures { result ≡ plus by.now p.now }
{
    plus(by, p)
}

fn move_points(by: &Vector, points: &mut [Vector])
    requires by { IsWithin (2 ^ 59) by.now }
    requires points { All (IsWithin (2 ^ 59)) points.old }
    ensures { points.new ≡ map (plus by.now) points.old }
{
    for p in points.iter_mut() {
        *p = moved_point(by, p);
    }
}

fn move_loop(by: &Vector, moved: &mut Loop)
    requires by { IsWithin (2 ^ 59) by.now }
    requires points { All (IsWithin (2 ^ 59)) moved.old }
    ensures { moved.new ≡ map (plus by.now) moved.old }
{
    move_points(by, &mut moved.points);
}

fn move_loops(by: &Vector, loops: &mut [Loop])
    requires by { IsWithin (2 ^ 59) by.now }
    requires loops { AreWithin (2 ^ 59) loops.old }
    ensures { loops.new ≡ map (map (plus by.now)) loops.old }
{
    for moved in loops.iter_mut() {
        move_loop(by, moved);
    }
}

fn moved_loops(by: &Vector, mut loops: Loops) -> Loops
    requires by { IsWithin (2 ^ 59) by.now }
    requires loops { AreWithin (2 ^ 59) loops }
    ensures { result ≡ map (map (plus by.now)) loops }
{
    move_loops(by, &mut loops.loops);
    loops
}

fn upwards(height: i128) -> Vector
    requires { unsigned_abs height ≤ 2 ^ 59 }
    ensures value { result ≡ upwards height }
    ensures within { IsWithin (2 ^ 59) result }
{
    Vector {
        x: 0,
        y: 0,
        z: height,
    }
}

/// Loops that are moved along z by a height in nanometres; the sizes of the height and of all coordinates are at most
/// 2^59. Takes no memory.
pub fn lifted(loops: Loops, height: i128) -> Loops
    requires loops { AreWithin (2 ^ 59) loops }
    requires height { unsigned_abs height ≤ 2 ^ 59 }
    ensures value { result ≡ lifted height loops }
    ensures outline { IsOutline (2 ^ 59) loops → IsOutline (2 ^ 60) result }
{
    moved_loops(&upwards(height), loops)
}
