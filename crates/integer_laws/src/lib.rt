//! Laws of whole numbers that the standard library lacks, for the proofs of other crates. No code.
#![tactic(auto)]
