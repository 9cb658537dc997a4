//! What the entities of IFC4 mean: units of length, points and axes, curves and profiles, solids, placements, elements with their
//! openings; and the first refusal in the order of reading. This crate has definitions alone.
#![tactic(auto)]
