//! Laws of meshes whose edges are cut at every corner on them, for proofs: each directed edge stands in the mesh of a tree's
//! faces as often as its reverse, and the faces are full. No code.
#![tactic(auto)]
