//! The lines of a page, each by itself.
#![tactic(auto)]

mod indices;
mod kinds;
mod limits;
mod line;
mod numbers;
mod refusals;
mod template;

pub use line::{Line, read_line};
