ghost use Rattle.std.specs.Prelude.{◌≡◌, true, IfSome};
ghost use Rattle.ifc_kinds.specs.declared.kind.Kind.{Kind};
ghost use Rattle.ifc_kinds.specs.Keywords.{keyword_of, is_keyword, element_kinds, is_element};

use crate::table::{Group, ROWS, kind_with};

/// An entity of IFC4 that is read: one value for each keyword that is known.
#[derive(Clone, Copy, Debug, PartialEq, Eq, Hash)]
pub enum Kind {
    Beam,
    BeamStandardCase,
    BuildingElementPart,
    BuildingElementProxy,
    Chimney,
    Column,
    ColumnStandardCase,
    Covering,
    CurtainWall,
    Door,
    DoorStandardCase,
    ElementAssembly,
    Footing,
    FurnishingElement,
    Furniture,
    Member,
    MemberStandardCase,
    Pile,
    Plate,
    PlateStandardCase,
    Railing,
    Ramp,
    RampFlight,
    Roof,
    ShadingDevice,
    Slab,
    SlabElementedCase,
    SlabStandardCase,
    Stair,
    StairFlight,
    Wall,
    WallElementedCase,
    WallStandardCase,
    Window,
    WindowStandardCase,
    OpeningElement,
    OpeningStandardCase,
    RelVoidsElement,
    ProductDefinitionShape,
    ShapeRepresentation,
    LocalPlacement,
    Project,
    UnitAssignment,
    SiUnit,
    ConversionBasedUnit,
    MeasureWithUnit,
    CartesianPoint,
    Direction,
    Axis2Placement3d,
    Axis2Placement2d,
    CartesianTransformationOperator3d,
    CartesianTransformationOperator3dNonUniform,
    ExtrudedAreaSolid,
    Block,
    FacetedBrep,
    FacetedBrepWithVoids,
    ClosedShell,
    Face,
    FaceBound,
    FaceOuterBound,
    PolyLoop,
    HalfSpaceSolid,
    BoxedHalfSpace,
    PolygonalBoundedHalfSpace,
    Plane,
    BooleanResult,
    BooleanClippingResult,
    CsgSolid,
    MappedItem,
    RepresentationMap,
    ArbitraryClosedProfileDef,
    ArbitraryProfileDefWithVoids,
    RectangleProfileDef,
    RectangleHollowProfileDef,
    IShapeProfileDef,
    Polyline,
    IndexedPolyCurve,
    CartesianPointList2d,
}

impl Kind {
    /// The kind with this keyword, in letters of any case (a leniency of this project), and `None`
    /// for every other word.
    pub fn of(keyword: &[u8]) -> Option<Kind>
        ensures named { IfSome result (λ kind. is_keyword kind keyword.now ≡ true) }
        ensures known { (kind : Kind) → is_keyword kind keyword.now ≡ true → result ≡ Some kind }
    {
        kind_with(&ROWS, keyword)
    }

    /// The keyword of the kind, in capitals.
    pub fn keyword(self) -> &'static str
        ensures { result.now ≡ keyword_of self }
    {
        ROWS[self as usize].1
    }
}

/// The building elements, in the order of the kinds.
const ELEMENTS: [Kind; 35] = [
    Kind::Beam,
    Kind::BeamStandardCase,
    Kind::BuildingElementPart,
    Kind::BuildingElementProxy,
    Kind::Chimney,
    Kind::Column,
    Kind::ColumnStandardCase,
    Kind::Covering,
    Kind::CurtainWall,
    Kind::Door,
    Kind::DoorStandardCase,
    Kind::ElementAssembly,
    Kind::Footing,
    Kind::FurnishingElement,
    Kind::Furniture,
    Kind::Member,
    Kind::MemberStandardCase,
    Kind::Pile,
    Kind::Plate,
    Kind::PlateStandardCase,
    Kind::Railing,
    Kind::Ramp,
    Kind::RampFlight,
    Kind::Roof,
    Kind::ShadingDevice,
    Kind::Slab,
    Kind::SlabElementedCase,
    Kind::SlabStandardCase,
    Kind::Stair,
    Kind::StairFlight,
    Kind::Wall,
    Kind::WallElementedCase,
    Kind::WallStandardCase,
    Kind::Window,
    Kind::WindowStandardCase,
];

/// The kinds of building elements.
pub fn element_kinds() -> &'static [Kind]
    ensures { result.now ≡ element_kinds }
{
    &ELEMENTS
}

/// Whether the kind is a building element, which gets a line of its own on the page.
pub fn is_element(kind: Kind) -> bool
    ensures { result ≡ is_element kind }
{
    ROWS[kind as usize].2 == Group::Element
}
