//! Convex cycles in a plane: definitions, and their laws for proofs. No code.
#![tactic(auto)]
