//! The instances of a file by their numbers, and the attributes of an instance.
#![tactic(auto)]

mod fault;

pub use fault::AttrFault;
