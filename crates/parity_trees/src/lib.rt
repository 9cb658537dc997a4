//! Trees that count regions: true where an odd number of them holds the point.
#![tactic(auto)]

mod crossing;
mod left;
mod regions;
mod sides;
mod step;
mod walk;
mod work;

pub use regions::Region;
pub use walk::parity_tree;
