//! Solids as a file gives them: the loops of profiles, the faces of primitives, and solids combined, with corners in
//! nanometres before they are mapped and rounded. This crate has definitions alone.
#![tactic(auto)]
