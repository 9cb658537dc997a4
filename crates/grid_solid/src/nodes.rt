use crate::shells::GridShell;
use plane_core::Plane;
use spec_solid::BoolOp;
use sqlite_items::{Boxed, Items};

/// A solid on the grid.
#[derive(Drop)]
pub enum GridNode {
    /// A primitive, by the triangles of its faces.
    Shell(GridShell),
    /// A half-space (IFC4, IfcHalfSpaceSolid): its material lies in front of the plane, or behind it.
    HalfSpace {
        plane: Plane,
        in_front: bool,
    },
    /// What an operator makes of two solids (IFC4, IfcBooleanResult).
    Combined {
        operator: BoolOp,
        first: Boxed<GridNode>,
        second: Boxed<GridNode>,
    },
    /// The solids of a representation that is used as one item (IFC4, IfcMappedItem): what lies in some of them.
    Union {
        parts: Items<GridNode>,
    },
}
