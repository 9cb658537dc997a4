//! Tests of meshes and of the lines of a page, each by the public calls of one crate.
#![tactic(auto)]

#[cfg(test)]
mod balances;
#[cfg(test)]
mod counts;
#[cfg(test)]
mod cuts;
#[cfg(test)]
mod faces;
#[cfg(test)]
mod lines;
#[cfg(test)]
mod meshes;
#[cfg(test)]
mod off;
#[cfg(test)]
mod printing;
#[cfg(test)]
mod volumes;
