//! Whether the faces of a mesh are sound: flat and convex, each edge on its plane and round the face.
#![tactic(auto)]

mod directions;
mod edges;
mod faces;
mod planes;

pub use faces::{first_unsound, is_flat};
