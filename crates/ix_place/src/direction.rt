ghost use Rattle.std.specs.Prelude.{◌≡◌, false, pos, ◌^◌, ◌*ℤ◌, ◌<ℤ◌, ◌≤ℤ◌};
ghost use Rattle.spec_place.specs.Vectors.{vector_of, is_zero, IsWithin};
ghost use Rattle.spec_place.specs.Directions.{magnitude, unit, direction};

use crate::types::Dir;
use crate::vector::{ONE, clamped, divided, dot, is_within, times, vector_of};
use ix_num::whole_root;
use spec_place::PlaceFault;
use spec_space::Vector;

/// The whole length of a vector.
fn magnitude(v: &Vector) -> i128
    requires small { IsWithin (10 ^ 18) v.now }
    requires some { is_zero v.now ≡ false }
    ensures value { result ≡ magnitude v.now }
    ensures positive { pos 0 <ℤ result }
    ensures small { result ≤ℤ pos (2 ^ 62) }
{
    whole_root(dot(v, v))
}

/// The unit vector of one that is not zero.
pub fn unit(v: &Vector) -> Dir
    requires small { IsWithin (10 ^ 18) v.now }
    requires some { is_zero v.now ≡ false }
    ensures { result ≡ unit v.now }
{
    Dir {
        v: clamped(&divided(&times(ONE, v), magnitude(v))),
    }
}

pub fn direction(v: &Vector) -> Result<Dir, PlaceFault>
    requires { IsWithin (10 ^ 18) v.now }
    ensures { result ≡ direction v.now }
{
    if is_within(0, v) {
        return Err(PlaceFault::ZeroDirection);
    }
    Ok(unit(v))
}

impl Dir {
    /// The direction of three ratios (ISO 10303-42) in units of 10^-12: each ratio over the whole
    /// length of the three, rounded to units of 10^-9 (a rule of this project). No ratio may have a
    /// size above 10^6.
    ///
    /// # Errors
    ///
    /// `ZeroDirection` exactly where all three are 0.
    pub fn of_triple(v: [i128; 3]) -> Result<Dir, PlaceFault>
        requires { IsWithin (10 ^ 18) (vector_of v) }
        ensures { result ≡ direction (vector_of v) }
    {
        direction(&vector_of(v))
    }
}
