//! The words of the command line, the program's name aside, and the statuses with which the program ends.
#![tactic(auto)]

mod job;
mod numbers;
mod options;
mod status;

pub use job::Job;
pub use status::Status;
