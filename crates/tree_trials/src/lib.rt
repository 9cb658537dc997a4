//! Tests of planes, their fragments, cells, trees and faces, and of the rounding of elements: each by the public calls of one
//! crate, and elements that are given by faces from their rounding to their trees.
#![tactic(auto)]

#[cfg(test)]
mod books;
#[cfg(test)]
mod cells;
#[cfg(test)]
mod corners;
#[cfg(test)]
mod edges;
#[cfg(test)]
mod fragments;
#[cfg(test)]
mod merges;
#[cfg(test)]
mod parities;
#[cfg(test)]
mod planes;
#[cfg(test)]
mod pools;
#[cfg(test)]
mod prisms;
#[cfg(test)]
mod rounding;
#[cfg(test)]
mod tests;
#[cfg(test)]
mod trees;
#[cfg(test)]
mod trial;
#[cfg(test)]
mod triangles;
#[cfg(test)]
mod walks;
