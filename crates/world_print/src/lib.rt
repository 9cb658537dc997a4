//! The printed corners of a mesh in the world, for any frame and any grid, and its volume: what an
//! element has on a page. Lengths are printed in metres with six digits.
#![tactic(auto)]

mod coordinate;
mod copy;
mod decimals;
mod element;
mod finished;
mod image;

pub use decimals::metres;
pub use element::ElementMesh;
pub use finished::finish;
pub use image::world_corner;
