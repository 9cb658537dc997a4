//! The merge of two trees of planes under a table of four values.
#![tactic(auto)]

mod next;
mod step;
mod table;
mod walk;
mod work;

pub use table::Table4;
pub use walk::merge;
