use spec_place::Transform;
use spec_space::Vector;
use std::marker::Model;

/// A direction (ISO 10303-42) in units of 10^-9, with no part of a size above 1. Contracts see it as
/// the vector of its parts.
#[derive(Clone, Copy, Debug, PartialEq, Eq)]
pub struct Dir {
    /// Its parts.
    pub v: Vector,
}

impl Model for Dir {
    ghost use Rattle.std.specs.Prelude.{◌^◌};
    ghost use Rattle.spec_space.specs.declared.Vector.{Vector};
    ghost use Rattle.spec_place.specs.Vectors.{IsWithin};

    ghost Value = { Vector };

    ghost view = { λ d. d.v };

    ghost invariant = { λ d. IsWithin (10 ^ 9) d.v };

    ghost inverse = { λ v. record { v = v } };
}

/// A frame (axis2_placement_3d of ISO 10303-42): the entries of its matrix, whose columns are its axes
/// x, y and z, have sizes of at most 1, and its offset of at most 10^16 nanometres. Contracts see it as
/// its transform.
#[derive(Clone, Copy, Debug, PartialEq, Eq)]
pub struct Frame {
    /// Its matrix and its offset.
    pub transform: Transform,
}

impl Model for Frame {
    ghost use Rattle.spec_place.specs.declared.transform.Transform.{Transform};
    ghost use Rattle.spec_place.specs.Transforms.{IsFrame};

    ghost Value = { Transform };

    ghost view = { λ f. f.transform };

    ghost invariant = { λ f. IsFrame f.transform };

    ghost inverse = { λ t. record { transform = t } };
}

/// A map, which may stretch: the entries of its matrix have sizes of at most 1000, and its offset of
/// at most 10^16 nanometres. Contracts see it as its transform.
#[derive(Clone, Copy, Debug, PartialEq, Eq)]
pub struct Map {
    /// Its matrix and its offset.
    pub transform: Transform,
}

impl Model for Map {
    ghost use Rattle.spec_place.specs.declared.transform.Transform.{Transform};
    ghost use Rattle.spec_place.specs.Transforms.{IsMap};

    ghost Value = { Transform };

    ghost view = { λ m. m.transform };

    ghost invariant = { λ m. IsMap m.transform };

    ghost inverse = { λ t. record { transform = t } };
}

/// A unit of length, of 1 to 10^12 nanometres. Contracts see it as that number.
#[derive(Clone, Copy, Debug, PartialEq, Eq)]
pub struct LengthUnit {
    /// The number of nanometres.
    pub nano: i64,
}

impl Model for LengthUnit {
    ghost use Rattle.std.specs.Prelude.{ℤ};
    ghost use Rattle.spec_place.specs.Lengths.{IsUnit};

    ghost Value = { ℤ };

    ghost view = { λ u. u.nano };

    ghost invariant = { λ u. IsUnit u.nano };

    ghost inverse = { λ k. record { nano = k } };
}
