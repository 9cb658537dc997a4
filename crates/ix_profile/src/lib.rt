//! The loops of profiles: rectangles, hollow rectangles, I shapes and closed curves, and where they stand in their plane.
#![tactic(auto)]

mod curve;
mod curves;
mod fault;
mod loops;
mod place;
mod shapes;
mod span;

pub use fault::LoopFault;
pub use loops::{Loop, Loops};
pub use shapes::{hollow, i_shape, rectangle};
