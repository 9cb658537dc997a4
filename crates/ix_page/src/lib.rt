//! The items of a page: what becomes of each element of a file, printed in the order of the file, or its meshes given to a
//! writer.
#![tactic(auto)]

mod counts;
mod element;
mod items;
mod report;
mod tally;

pub use items::{take_meshes, write_page};
pub use report::page_report;
pub use tally::Tally;
