//! The canonical spelling of a STEP file (ISO 10303-21).
#![tactic(auto)]

mod print;

pub use print::print_file;
