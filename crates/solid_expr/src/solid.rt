use crate::face::Face;
use ix_place::{Frame, Map};
use spec_solid::BoolOp;
use sqlite_items::{Boxed, Items};

/// A solid as it is read, before it is mapped to the grid and rounded. `at` is the number of its instance, which a refusal of
/// a primitive names.
#[derive(Drop)]
pub enum Solid {
    /// A primitive by its faces, whose corners are those before the map.
    Faces {
        at: u64,
        map: Map,
        faces: Vec<Face>,
    },
    /// A half-space (IfcHalfSpaceSolid) by the map composed with the frame of its plane, and its AgreementFlag: where it is
    /// set, the material lies on the side away from the normal.
    Half {
        at: u64,
        map: Map,
        agreement: bool,
    },
    /// Two solids combined (IfcBooleanResult, IfcBooleanClippingResult, and a half-space with its boundary).
    Combined {
        at: u64,
        operator: BoolOp,
        first: Boxed<Solid>,
        second: Boxed<Solid>,
    },
    /// Solids united (IfcMappedItem, and IfcCsgSolid with its root alone); none have no points.
    Union {
        at: u64,
        parts: Items<Solid>,
    },
}

/// An item of a representation.
#[derive(Drop)]
pub struct Item {
    /// The number of its instance.
    pub at: u64,
    /// Its solid.
    pub solid: Solid,
}

/// The solid of an element: its items without the items of its openings.
#[derive(Drop)]
pub struct ElementSolid {
    /// The number of the element's instance.
    pub number: u64,
    /// Its items, in its own frame.
    pub items: Vec<Item>,
    /// The items of its openings, in its own frame too.
    pub openings: Vec<Item>,
    /// Where it stands in the world.
    pub frame: Frame,
}
