//! The mesh of an element on the grid, ready to be written: its tree of planes, the faces of the tree, their edges cut at
//! every corner on them, and the corners printed in the element's frame.
#![tactic(auto)]

mod element;
mod surface;

pub use element::element_mesh;
