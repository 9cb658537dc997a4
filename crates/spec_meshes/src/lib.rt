//! Which meshes the converted elements of a file have.
#![tactic(auto)]
