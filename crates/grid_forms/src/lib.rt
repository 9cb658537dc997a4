//! Reduced planes as the definitions of elements on the grid tell them, and as `plane_core` makes them: laws for the proofs of
//! other crates. No code.
#![tactic(auto)]
