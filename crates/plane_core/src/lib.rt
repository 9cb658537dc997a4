//! Planes with whole numbers, reduced; the corners where three of them meet; the side of a corner at a plane; and books
//! that number planes. All of it is exact within 128 bits.
#![tactic(auto)]

mod book;
mod determinants;
mod numbers;
mod points;
mod raw_corners;
mod reduce;
mod reduced;
mod walls;

pub use book::{PlaneBook, PlaneId};
pub use numbers::{Corner, Plane, RawCorner};
pub use points::{Sign, meet, side};
