//! Tokens and files of STEP text (ISO 10303-21).
#![tactic(auto)]

mod fault;
mod token;
mod tree;

pub use fault::StepFault;
pub use token::{Span, Token, TokenKind, TokenStep};
pub use tree::{Body, Entry, Instance, Param};
