//! The reduced planes of triangles on the grid.
#![tactic(auto)]

mod forms;
mod normals;
mod planes;

pub use forms::{Forms, TriangleForms};
pub use planes::forms_of;
