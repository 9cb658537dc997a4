//! A page is read back: any text in the form of this project's pages, whoever wrote it.
#![tactic(auto)]

mod grow;
mod parts;
mod places;
mod read;
mod reader;
mod split;
#[cfg(test)]
mod tests;

pub use read::read_obj;
