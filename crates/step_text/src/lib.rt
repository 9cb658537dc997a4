//! Files of STEP text (ISO 10303-21): the trees of a file, or why and where a text is none.
#![tactic(auto)]

mod file;
mod parse;
mod read;
mod repeat;
mod schema;

pub use file::StepFile;
pub use parse::parse_file;
pub use spec_step::{Body, Entry, Instance, Param, Span, StepFault, Token, TokenKind, TokenStep};
pub use step_token::{bytes_at, next_token};
