//! Solids on the grid: shells of triangles, half-spaces, and what combines them, with what rounding ensures of them.
#![tactic(auto)]

mod nodes;
mod shells;
mod solids;
mod triangles;

pub use nodes::GridNode;
pub use shells::GridShell;
pub use solids::GridSolid;
pub use triangles::GridTriangle;
