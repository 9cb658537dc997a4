//! The text of a page: Wavefront OBJ with comment lines of this project.
#![tactic(auto)]

mod element;
mod faces;
mod lines;
mod numbers;
mod page;
mod refusals;

pub use element::write_element;
pub use page::{write_end, write_head};
pub use refusals::{write_refused, write_skipped};
