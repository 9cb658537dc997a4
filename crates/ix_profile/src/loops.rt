use spec_space::Vector;
use std::marker::Model;

/// A closed polygon by its corners in nanometres: an edge leads from each corner to the next one, and from the last to
/// the first. Those of profiles lie in the plane z = 0. Contracts see it as the list of the corners.
#[derive(Drop)]
pub struct Loop {
    /// Its corners.
    pub points: Vec<Vector>,
}

impl Model for Loop {
    ghost use Rattle.std.specs.Prelude.{List};
    ghost use Rattle.spec_space.specs.declared.Vector.{Vector};

    ghost Value = { List Vector };

    ghost view = { λ l. l.points.items };
}

/// The loops of a profile or of a face. Contracts see them as the list of the lists of their corners.
#[derive(Drop)]
pub struct Loops {
    /// The loops in their order; a profile has its outer curve first.
    pub loops: Vec<Loop>,
}

impl Model for Loops {
    ghost use Rattle.std.specs.Prelude.{List};
    ghost use Rattle.spec_space.specs.declared.Vector.{Vector};

    ghost Value = { List (List Vector) };

    ghost view = { λ l. l.loops.items };
}
