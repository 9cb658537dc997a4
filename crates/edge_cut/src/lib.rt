//! Meshes whose edges are cut at every corner on them: the faces of a mesh from pieces of planes, each turned outwards.
#![tactic(auto)]

mod builder;
mod gather;
mod inside;
mod lines;
mod mesh;
mod outlines;
mod round;
mod sides;

pub use mesh::cut_faces;
pub use sides::Side;
