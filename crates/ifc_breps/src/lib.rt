//! Faceted breps of IFC4: their faces, each by its loops in space, or why an element is refused.
#![tactic(auto)]

mod bounds;
mod faces;
mod shells;

pub use shells::brep_faces;
