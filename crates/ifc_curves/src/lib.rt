//! Curves of straight lines of IFC4, by the loops of their points, or why an element is refused; and the count of triangles and
//! half-spaces, which is limited.
#![tactic(auto)]

mod counts;
mod curves;
mod outlines;
mod points;
mod segments;

pub use counts::{count_loop, count_with};
pub use curves::{CURVE_KINDS, curve, named_curve};
pub use outlines::{one_loop, with_loop};
pub use points::Points;
