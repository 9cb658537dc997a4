//! The printed element and the text of a page.
#![tactic(auto)]

use spec_space::{Point, Vector};

/// A corner of a printed element: the exact one in grid steps in the element's frame, and the
/// printed one in micrometres in the world.
#[derive(Clone, Copy, Debug, PartialEq, Eq)]
pub struct Corner {
    pub exact: Point,
    pub printed: Vector,
}
