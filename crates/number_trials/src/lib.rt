//! Tests of what stands below the readers: numbers, placements, profiles, solids, words, sources and sinks, and keywords.
#![tactic(auto)]

#[cfg(test)]
mod ends;
#[cfg(test)]
mod keywords;
#[cfg(test)]
mod numbers;
#[cfg(test)]
mod placements;
#[cfg(test)]
mod profiles;
#[cfg(test)]
mod solids;
#[cfg(test)]
mod words;
