//! What the bytes of sources and sinks and their counts of faults mean. This crate has definitions alone.
#![tactic(auto)]
