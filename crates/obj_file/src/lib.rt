//! A page that was read back: its grid and its items in order.
#![tactic(auto)]

mod element;
mod fault;
mod file;
mod item;

pub use element::ObjElement;
pub use fault::ObjFault;
pub use file::ObjFile;
pub use item::ObjItem;
