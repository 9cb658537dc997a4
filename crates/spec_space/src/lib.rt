//! Points, planes and vectors over whole numbers.
#![tactic(auto)]

/// The point (x/w, y/w, z/w) in grid steps, with a weight w above 0.
#[derive(Clone, Copy, Debug, PartialEq, Eq)]
pub struct Point {
    pub x: i128,
    pub y: i128,
    pub z: i128,
    pub w: i128,
}

/// The plane of the points with ax + by + cz = d, in grid steps.
#[derive(Clone, Copy, Debug, PartialEq, Eq)]
pub struct Plane {
    pub a: i128,
    pub b: i128,
    pub c: i128,
    pub d: i128,
}

/// Three whole numbers along the axes; whoever holds them says in which unit.
#[derive(Clone, Copy, Debug, PartialEq, Eq)]
pub struct Vector {
    pub x: i128,
    pub y: i128,
    pub z: i128,
}
