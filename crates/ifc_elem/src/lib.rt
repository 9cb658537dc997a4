//! Elements of IFC4 with their openings: their solids before they are mapped to the grid and rounded, or why one is refused.
#![tactic(auto)]

mod bodies;
mod openings;
mod products;

pub use bodies::element_body;
pub use entity_reader::elements;
pub use openings::Openings;
