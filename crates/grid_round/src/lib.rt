//! An element on the grid: its corners are mapped and rounded to whole steps, or the first refusal.
#![tactic(auto)]

mod bounded;
mod corners;
mod edges;
mod element;
mod faces;
mod faults;
mod halves;
mod planes;
mod shells;
mod solids;
mod triangles;

pub use element::round_solid;
pub use faults::RoundFault;
