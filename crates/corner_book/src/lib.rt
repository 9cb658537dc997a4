//! The corners of a mesh by their places, with the corners on each plane of a book; and the order of corners along a
//! line. All of it is exact within 128 bits.
#![tactic(auto)]

mod book;
mod lists;
mod order;
mod places;

pub use book::CornerBook;
pub use order::before_on_line;
