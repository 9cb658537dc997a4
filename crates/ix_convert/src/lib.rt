//! Jobs, the call that runs them, and the start of the program.
#![tactic(auto)]

mod answer;
mod building;
mod choosing;
mod deliver;
mod jobs;
mod open;
mod report;
mod run;
mod starting;
mod words;

pub use ix_words::{Job, Status};
pub use run::convert_run;
pub use starting::start;
