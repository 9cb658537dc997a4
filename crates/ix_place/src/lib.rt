//! Where solids stand: units of length, directions, frames and maps, in whole numbers. No call takes
//! memory.
#![tactic(auto)]

mod axes;
mod chain;
mod direction;
mod frame;
mod half;
mod length;
mod map;
mod matrix;
mod types;
mod vector;

pub use spec_place::{HalfSpace, PlaceFault, Prefix, Transform};
pub use types::{Dir, Frame, LengthUnit, Map};
