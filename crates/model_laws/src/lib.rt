//! Laws of model files, for proofs: each is a file that is converted. No code.
#![tactic(auto)]
