//! The edges of shells: when a shell is closed, and at which edge it is open. This crate has definitions alone.
#![tactic(auto)]
