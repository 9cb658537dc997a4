use spec_space::Vector;

/// The directions of three axes, in units of 10^-9.
#[derive(Clone, Copy, Debug, PartialEq, Eq)]
pub struct Axes {
    pub x: Vector,
    pub y: Vector,
    pub z: Vector,
}

/// What frames and maps are: the rows of a matrix in units of 10^-9, whose columns are the images of
/// the axes, and an offset in nanometres.
#[derive(Clone, Copy, Debug, PartialEq, Eq)]
pub struct Transform {
    pub x: Vector,
    pub y: Vector,
    pub z: Vector,
    pub off: Vector,
}
