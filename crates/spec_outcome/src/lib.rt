//! What becomes of each element of a file. This crate has definitions alone.
#![tactic(auto)]
