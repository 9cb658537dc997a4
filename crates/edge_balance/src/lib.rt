//! Whether each directed edge stands in the faces of a mesh as often as its reverse.
#![tactic(auto)]

mod balance;
mod differences;
mod edges;

pub use balance::unbalanced;
