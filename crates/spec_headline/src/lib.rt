//! What is promised of each printed element. This crate has definitions alone.
#![tactic(auto)]
