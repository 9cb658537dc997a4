//! Model files of walls with windows and a slab with holes, for trials of any size up to 150 walls.
#![tactic(auto)]

mod blocks;
mod lines;
mod model;
mod numbers;
#[cfg(test)]
mod tests;

pub use model::generate;
