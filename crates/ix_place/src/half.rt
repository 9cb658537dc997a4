ghost use Rattle.std.specs.Prelude.{◌≡◌, ◌^◌, ◌≤◌, pos, false, IfOk, Ok};
ghost use Rattle.spec_place.specs.Vectors.{divided, is_zero, IsWithin};
ghost use Rattle.spec_place.specs.Transforms.{IsMap};
ghost use Rattle.spec_place.specs.Directions.{direction};
ghost use Rattle.spec_place.specs.Frames.{next};
ghost use Rattle.spec_place.specs.Maps.{turned_to};
ghost use Rattle.spec_place.specs.HalfSpaces.{raw_normal, plane_normal, location, plane_through, half_space};
ghost use Rattle.ix_place.specs.Bounds.{IsPlaneOnGrid};

use crate::direction::{direction, unit};
use crate::map::{in_steps, turned_to};
use crate::matrix::{first_column, second_column, third_column};
use crate::types::Map;
use crate::vector::{cross, divided, dot, is_within};
use spec_place::{HalfSpace, PlaceFault, Transform};
use spec_space::{Plane, Vector};

/// A vector across two directions, in units of 10^-12.
fn raw_normal(u: &Vector, v: &Vector) -> Vector
    requires first { IsWithin (10 ^ 9) u.now }
    requires second { IsWithin (10 ^ 9) v.now }
    ensures value { result ≡ raw_normal u.now v.now }
    ensures within { IsWithin (10 ^ 18) result }
{
    divided(&cross(u, v), 1_000_000)
}

/// The unit vector of a normal, on the side of another vector.
fn unit_normal(raw: &Vector, side: &Vector) -> Result<Vector, PlaceFault>
    requires raw { IsWithin (10 ^ 18) raw.now }
    requires side { IsWithin (10 ^ 12) side.now }
    ensures value { result ≡ next (direction raw.now) (λ n. Ok (turned_to side.now n)) }
    ensures within { IfOk result (λ n. IsWithin (10 ^ 9) n) }
    ensures some { IfOk result (λ n. is_zero (divided n (pos 100)) ≡ false) }
{
    if is_within(0, raw) {
        return Err(PlaceFault::ZeroDirection);
    }
    let n = unit(raw).v;
    Ok(turned_to(side, &n))
}

/// The unit normal of the plane that a map makes of the plane z = 0.
fn plane_normal(m: &Transform) -> Result<Vector, PlaceFault>
    requires { IsMap m.now }
    ensures value { result ≡ plane_normal m.now }
    ensures within { IfOk result (λ n. IsWithin (10 ^ 9) n) }
    ensures some { IfOk result (λ n. is_zero (divided n (pos 100)) ≡ false) }
{
    let u = direction(&first_column(m))?.v;
    let v = direction(&second_column(m))?.v;
    unit_normal(&raw_normal(&u, &v), &third_column(m))
}

/// The place of the plane, in grid steps of so many micrometres.
fn location(m: &Transform, step: u32) -> Vector
    requires map { IsMap m.now }
    requires low { 1 ≤ step }
    requires high { step ≤ 10000 }
    ensures value { result ≡ location m.now step }
    ensures within { IsWithin (10 ^ 13) result }
{
    divided(&m.off, in_steps(1000, step))
}

/// The plane of a normal through a corner.
fn plane_through(n: &Vector, corner: &Vector) -> Plane
    requires normal { IsWithin (10 ^ 7) n.now }
    requires corner { IsWithin (10 ^ 13) corner.now }
    ensures value { result ≡ plane_through n.now corner.now }
{
    Plane {
        a: n.x,
        b: n.y,
        c: n.z,
        d: dot(n, corner),
    }
}

impl Map {
    /// The half-space whose plane this map makes of the plane z = 0, on a grid of steps of so many
    /// micrometres (IfcHalfSpaceSolid; a rule of this project). The plane goes through the corner of the
    /// map's offset. With the agreement flag the material is on the side away from the image of the
    /// third axis, and else on its side.
    ///
    /// # Errors
    ///
    /// `ZeroDirection` exactly where the plane has no normal.
    pub fn half_space(&self, step: u32, agreement: bool) -> Result<HalfSpace, PlaceFault>
        requires low { 1 ≤ step }
        requires high { step ≤ 10000 }
        ensures value { result ≡ half_space self.now step agreement }
        // The plane has a normal, and its numbers are not large.
        ensures plane { IfOk result (λ h. IsPlaneOnGrid h.plane) }
    {
        let normal = divided(&plane_normal(&self.transform)?, 100);
        let corner = location(&self.transform, step);
        Ok(HalfSpace {
            plane: plane_through(&normal, &corner),
            in_front: !agreement,
            corner,
        })
    }
}
