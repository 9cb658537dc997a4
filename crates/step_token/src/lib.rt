//! The tokens of STEP text (ISO 10303-21), and the bytes of a span.
#![tactic(auto)]

mod bytes;
mod gap;
mod longest;
mod machine;
mod next;

pub use bytes::bytes_at;
pub use next::next_token;
pub use spec_step::{Span, Token, TokenKind, TokenStep};
