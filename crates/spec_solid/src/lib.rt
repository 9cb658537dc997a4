//! When a point is inside a solid, and which planes a solid has.
#![tactic(auto)]

/// The Boolean operators of IFC4 (IfcBooleanResult).
#[derive(Clone, Copy, Debug, PartialEq, Eq)]
pub enum BoolOp {
    /// What lies in one of two solids, or in both.
    Union,
    /// What lies in both.
    Intersection,
    /// What lies in the first and not in the second.
    Difference,
}
