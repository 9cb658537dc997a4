//! Lengths, directions, axes, frames and maps: the rules by which solids are placed. This crate has
//! definitions, and the plain types that several crates share.
#![tactic(auto)]

mod fault;
mod half;
mod prefix;
mod transform;

pub use fault::PlaceFault;
pub use half::HalfSpace;
pub use prefix::Prefix;
pub use transform::{Axes, Transform};
