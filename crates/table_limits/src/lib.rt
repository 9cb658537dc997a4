//! The numbers of an accepted file have at most 18 digits, and what is read of its table keeps the limits of what a page holds:
//! laws for the proofs of other crates. No code.
#![tactic(auto)]
