use ix_profile::Loops;
use std::marker::Model;

/// A face by its loops of corners in nanometres: at least one loop, each of at least three corners, with coordinates
/// below 2^62 in size. Contracts see it as a face of the definitions.
#[derive(Drop)]
pub struct Face {
    /// The number of the instance that a refusal of the face names.
    pub at: u64,
    /// Its loops.
    pub loops: Loops,
}

impl Model for Face {
    ghost use Rattle.std.specs.Prelude.{◌^◌, ◌-◌};
    ghost use Rattle.spec_shape.specs.Shapes.{Face};
    ghost use Rattle.ix_profile.specs.Outlines.{IsOutline};

    ghost Value = { Face };

    ghost view = { λ f. record { at = f.at; loops = f.loops } };

    ghost invariant = { λ f. IsOutline (2 ^ 62 - 1) f.loops };
}
