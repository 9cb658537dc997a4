//! Convex fragments of planes.
#![tactic(auto)]

mod axis;
mod clip;
mod cube;
mod cut;
mod frag;
mod inner;
mod join;
mod meets;
mod rest;
mod whole;

pub use cut::split;
pub use frag::{Edge, Frag, Split};
pub use join::joins_to;
pub use meets::{corners, raw_corners};
pub use whole::on_cube;
