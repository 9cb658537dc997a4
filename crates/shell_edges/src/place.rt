/// A place on the grid, in steps. Places come in the order of x, then of y, then of z.
#[derive(Clone, Copy, Debug, PartialEq, Eq, PartialOrd, Ord, Drop)]
pub struct Place {
    pub x: i128,
    pub y: i128,
    pub z: i128,
}
