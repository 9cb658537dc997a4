//! The keywords of IFC4 that are read, and which of them are building elements.
#![tactic(auto)]

mod kind;
mod table;

pub use kind::{Kind, element_kinds, is_element};
