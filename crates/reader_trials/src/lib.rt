//! Tests of the readers, from the text of a file on: tokens, files and what is printed of them, tables, entities, numbers,
//! placements, curves, profiles, breps, solids and elements.
#![tactic(auto)]

#[cfg(test)]
mod asked;
#[cfg(test)]
mod breps;
#[cfg(test)]
mod curves;
#[cfg(test)]
mod elements;
#[cfg(test)]
mod entities;
#[cfg(test)]
mod files;
#[cfg(test)]
mod numbers;
#[cfg(test)]
mod placements;
#[cfg(test)]
mod printing;
#[cfg(test)]
mod profiles;
#[cfg(test)]
mod solids;
#[cfg(test)]
mod tables;
#[cfg(test)]
mod tokens;
