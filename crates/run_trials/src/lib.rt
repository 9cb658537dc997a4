//! Tests of the top call, from the words and the bytes of a source on: what it puts, reports and answers.
#![tactic(auto)]

#[cfg(test)]
mod ends;
#[cfg(test)]
mod failing;
#[cfg(test)]
mod hostile;
#[cfg(test)]
mod many;
#[cfg(test)]
mod runs;
#[cfg(test)]
mod samples;
#[cfg(test)]
mod writers;
