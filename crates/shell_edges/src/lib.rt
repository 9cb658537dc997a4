//! The edge at which a shell is open.
#![tactic(auto)]

mod odd;
mod place;

pub use odd::open_edge;
