//! How many triangles and half-spaces the solids of a file have that are read: laws of counts, for the proofs of other crates.
//! No code.
#![tactic(auto)]
