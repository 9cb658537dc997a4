ghost use Rattle.std.specs.Prelude.{◌≡◌, ◌^◌, ◌-◌};
ghost use Rattle.spec_solid.specs.Extrusions.{plus};
ghost use Rattle.spec_place.specs.Vectors.{IsWithin};

use spec_space::Vector;

/// The sum of two vectors.
pub fn plus(u: &Vector, v: &Vector) -> Vector
    requires first { IsWithin (2 ^ 61 - 1) u.now }
    requires second { IsWithin (2 ^ 61 - 1) v.now }
    ensures { result ≡ plus u.now v.now }
{
    Vector {
        x: u.x + v.x,
        y: u.y + v.y,
        z: u.z + v.z,
    }
}
