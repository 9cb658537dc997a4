//! What the entities of IFC4 mean that are read: length units, boxes and their combinations, elements. This crate has
//! definitions alone.
#![tactic(auto)]
