//! Writers of meshes that are handed in, and one for OFF text.
#![tactic(auto)]

mod off;
mod text;
mod writer;

pub use off::OffWriter;
pub use writer::MeshWriter;
