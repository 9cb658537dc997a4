//! What an element is on the grid, or why it is refused after it was read. This crate has definitions alone.
#![tactic(auto)]
