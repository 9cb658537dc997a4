//! The grammar of a STEP file (ISO 10303-21), read token by token: what may stand at a place of a
//! file, and the head entries and instances that the tokens before it spell.
#![tactic(auto)]

mod classify;
mod entry;
mod file;
mod place;
mod symbol;

pub use classify::symbol_of;
pub use entry::{Frame, Spot};
pub use file::{is_too_deep, step};
pub use place::{Fixed, Key, Place, Progress};
pub use symbol::{Atom, Name, Symbol};
