use plane_core::{Corner, PlaneId};
use poly_frag::Edge;

/// An edge of a piece, with the edges beside it and the corners between which it runs: the edge before it ends where it
/// starts, and the edge after it starts where it ends.
#[derive(Clone, Copy)]
pub struct Side {
    pub before: Edge,
    pub edge: Edge,
    pub after: Edge,
    pub start: Corner,
    pub end: Corner,
}

/// The edges of a piece in order, and its plane.
#[derive(Drop)]
pub(crate) struct Outline {
    /// The plane in which the piece lies.
    pub support: PlaneId,
    /// Whether the front of its plane is outside.
    pub front_out: bool,
    pub sides: Vec<Side>,
}
