//! Solids as a file gives them, before they are mapped to the grid and rounded.
#![tactic(auto)]

mod count;
mod face;
mod face_loops;
mod lift;
mod prism;
mod solid;
mod vectors;

pub use count::{count_triangles, is_bounded};
pub use face::Face;
pub use lift::lifted;
pub use prism::{block_faces, prism_faces};
pub use solid::{ElementSolid, Item, Solid};
