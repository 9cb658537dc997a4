//! The instances of a STEP file by their numbers (ISO 10303-21), and their attributes.
#![tactic(auto)]

mod index;
mod table;
mod typed_values;

pub use spec_table::AttrFault;
pub use table::{Table, param_list};
pub use typed_values::innermost;
