//! Every refusal of an element of an accepted file keeps the limits of what a page holds: laws for the proofs of other crates.
//! No code.
#![tactic(auto)]
