//! Meshes with exact corners: how often an edge stands in them, and the exact volume of their printed
//! corners.
#![tactic(auto)]

mod mesh;
mod vectors;
mod volume;

pub use mesh::{ExactMesh, MeshFace, edge_count};
pub use volume::sixfold;
