//! The solids of IFC4: what the instance of a number stands for under a map, or why an element is refused.
#![tactic(auto)]

mod combined;
mod half_spaces;
mod joined;
mod primitives;

pub use combined::read_solid;
pub use ifc_axes::{GeomIn, ItemFault, length_unit, opening_frame, read_chain, world_frame};
