use spec_space::{Plane, Vector};

/// A half-space on the grid.
#[derive(Clone, Copy, Debug, PartialEq, Eq)]
pub struct HalfSpace {
    /// Its plane in grid steps. The four numbers may have a common divisor, and either side may be
    /// the front.
    pub plane: Plane,
    /// The material lies in front of the plane, where `ax + by + cz > d`, and else behind it.
    pub in_front: bool,
    /// The place of the plane in grid steps, through which it goes.
    pub corner: Vector,
}
