//! The faces of a tree of planes: the pieces of its planes across which its value changes.
#![tactic(auto)]

mod faces;
mod lower;
mod places;
mod visits;
mod walk;
mod work;

pub use faces::OutFace;
pub use walk::{all_faces, faces_on};
