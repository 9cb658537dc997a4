//! The trees of solids and elements on the grid.
#![tactic(auto)]

mod cells;
mod elements;
mod nodes;
mod sweep;
mod unions;

pub use cells::one_meaning_in_each_cell;
pub use elements::solid_tree;
