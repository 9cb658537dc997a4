//! Rules of numbers: decimal texts, their values, rounding, whole roots, and the order of fractions. This crate has definitions alone.
#![tactic(auto)]
