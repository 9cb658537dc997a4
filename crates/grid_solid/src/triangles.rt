use spec_space::Vector;

/// A triangle with its corners in grid steps. Its corners may lie on one line, or in one place.
#[derive(Clone, Copy, PartialEq, Eq)]
pub struct GridTriangle {
    pub a: Vector,
    pub b: Vector,
    pub c: Vector,
}
