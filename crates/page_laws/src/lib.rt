//! Laws of the pages of `convert`, for proofs: they keep the limits that a reader of pages wants, and their elements are
//! sound. No code.
#![tactic(auto)]
