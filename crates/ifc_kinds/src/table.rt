ghost use Rattle.std.specs.Prelude.{◌≡◌, map};
ghost use Rattle.std.specs.List.{find};
ghost use Rattle.std.specs.Option.{option_map};
ghost use Rattle.ifc_kinds.specs.Keywords.{is_spelling_of};
ghost use Rattle.ifc_kinds.specs.Rows.{plain, kind_with};

use crate::kind::Kind;

/// What the entities of a part of the table are.
#[derive(Clone, Copy, PartialEq, Eq)]
pub enum Group {
    /// a building element, which is printed
    Element,
    /// an opening, a relation, a shape, a placement or a unit
    Product,
    /// a point, a direction or axes
    Axes,
    /// a solid or a part of one
    Solid,
    /// a profile or a curve
    Profile,
}

/// A kind, its keyword in capitals, and the part of the table that it belongs to.
pub type Row = (Kind, &'static str, Group);

/// The table of keywords, in the order of the kinds.
pub const ROWS: [Row; 78] = [
    (Kind::Beam, "IFCBEAM", Group::Element),
    (
        Kind::BeamStandardCase,
        "IFCBEAMSTANDARDCASE",
        Group::Element,
    ),
    (
        Kind::BuildingElementPart,
        "IFCBUILDINGELEMENTPART",
        Group::Element,
    ),
    (
        Kind::BuildingElementProxy,
        "IFCBUILDINGELEMENTPROXY",
        Group::Element,
    ),
    (Kind::Chimney, "IFCCHIMNEY", Group::Element),
    (Kind::Column, "IFCCOLUMN", Group::Element),
    (
        Kind::ColumnStandardCase,
        "IFCCOLUMNSTANDARDCASE",
        Group::Element,
    ),
    (Kind::Covering, "IFCCOVERING", Group::Element),
    (Kind::CurtainWall, "IFCCURTAINWALL", Group::Element),
    (Kind::Door, "IFCDOOR", Group::Element),
    (
        Kind::DoorStandardCase,
        "IFCDOORSTANDARDCASE",
        Group::Element,
    ),
    (Kind::ElementAssembly, "IFCELEMENTASSEMBLY", Group::Element),
    (Kind::Footing, "IFCFOOTING", Group::Element),
    (
        Kind::FurnishingElement,
        "IFCFURNISHINGELEMENT",
        Group::Element,
    ),
    (Kind::Furniture, "IFCFURNITURE", Group::Element),
    (Kind::Member, "IFCMEMBER", Group::Element),
    (
        Kind::MemberStandardCase,
        "IFCMEMBERSTANDARDCASE",
        Group::Element,
    ),
    (Kind::Pile, "IFCPILE", Group::Element),
    (Kind::Plate, "IFCPLATE", Group::Element),
    (
        Kind::PlateStandardCase,
        "IFCPLATESTANDARDCASE",
        Group::Element,
    ),
    (Kind::Railing, "IFCRAILING", Group::Element),
    (Kind::Ramp, "IFCRAMP", Group::Element),
    (Kind::RampFlight, "IFCRAMPFLIGHT", Group::Element),
    (Kind::Roof, "IFCROOF", Group::Element),
    (Kind::ShadingDevice, "IFCSHADINGDEVICE", Group::Element),
    (Kind::Slab, "IFCSLAB", Group::Element),
    (
        Kind::SlabElementedCase,
        "IFCSLABELEMENTEDCASE",
        Group::Element,
    ),
    (
        Kind::SlabStandardCase,
        "IFCSLABSTANDARDCASE",
        Group::Element,
    ),
    (Kind::Stair, "IFCSTAIR", Group::Element),
    (Kind::StairFlight, "IFCSTAIRFLIGHT", Group::Element),
    (Kind::Wall, "IFCWALL", Group::Element),
    (
        Kind::WallElementedCase,
        "IFCWALLELEMENTEDCASE",
        Group::Element,
    ),
    (
        Kind::WallStandardCase,
        "IFCWALLSTANDARDCASE",
        Group::Element,
    ),
    (Kind::Window, "IFCWINDOW", Group::Element),
    (
        Kind::WindowStandardCase,
        "IFCWINDOWSTANDARDCASE",
        Group::Element,
    ),
    (Kind::OpeningElement, "IFCOPENINGELEMENT", Group::Product),
    (
        Kind::OpeningStandardCase,
        "IFCOPENINGSTANDARDCASE",
        Group::Product,
    ),
    (Kind::RelVoidsElement, "IFCRELVOIDSELEMENT", Group::Product),
    (
        Kind::ProductDefinitionShape,
        "IFCPRODUCTDEFINITIONSHAPE",
        Group::Product,
    ),
    (
        Kind::ShapeRepresentation,
        "IFCSHAPEREPRESENTATION",
        Group::Product,
    ),
    (Kind::LocalPlacement, "IFCLOCALPLACEMENT", Group::Product),
    (Kind::Project, "IFCPROJECT", Group::Product),
    (Kind::UnitAssignment, "IFCUNITASSIGNMENT", Group::Product),
    (Kind::SiUnit, "IFCSIUNIT", Group::Product),
    (
        Kind::ConversionBasedUnit,
        "IFCCONVERSIONBASEDUNIT",
        Group::Product,
    ),
    (Kind::MeasureWithUnit, "IFCMEASUREWITHUNIT", Group::Product),
    (Kind::CartesianPoint, "IFCCARTESIANPOINT", Group::Axes),
    (Kind::Direction, "IFCDIRECTION", Group::Axes),
    (Kind::Axis2Placement3d, "IFCAXIS2PLACEMENT3D", Group::Axes),
    (Kind::Axis2Placement2d, "IFCAXIS2PLACEMENT2D", Group::Axes),
    (
        Kind::CartesianTransformationOperator3d,
        "IFCCARTESIANTRANSFORMATIONOPERATOR3D",
        Group::Axes,
    ),
    (
        Kind::CartesianTransformationOperator3dNonUniform,
        "IFCCARTESIANTRANSFORMATIONOPERATOR3DNONUNIFORM",
        Group::Axes,
    ),
    (
        Kind::ExtrudedAreaSolid,
        "IFCEXTRUDEDAREASOLID",
        Group::Solid,
    ),
    (Kind::Block, "IFCBLOCK", Group::Solid),
    (Kind::FacetedBrep, "IFCFACETEDBREP", Group::Solid),
    (
        Kind::FacetedBrepWithVoids,
        "IFCFACETEDBREPWITHVOIDS",
        Group::Solid,
    ),
    (Kind::ClosedShell, "IFCCLOSEDSHELL", Group::Solid),
    (Kind::Face, "IFCFACE", Group::Solid),
    (Kind::FaceBound, "IFCFACEBOUND", Group::Solid),
    (Kind::FaceOuterBound, "IFCFACEOUTERBOUND", Group::Solid),
    (Kind::PolyLoop, "IFCPOLYLOOP", Group::Solid),
    (Kind::HalfSpaceSolid, "IFCHALFSPACESOLID", Group::Solid),
    (Kind::BoxedHalfSpace, "IFCBOXEDHALFSPACE", Group::Solid),
    (
        Kind::PolygonalBoundedHalfSpace,
        "IFCPOLYGONALBOUNDEDHALFSPACE",
        Group::Solid,
    ),
    (Kind::Plane, "IFCPLANE", Group::Solid),
    (Kind::BooleanResult, "IFCBOOLEANRESULT", Group::Solid),
    (
        Kind::BooleanClippingResult,
        "IFCBOOLEANCLIPPINGRESULT",
        Group::Solid,
    ),
    (Kind::CsgSolid, "IFCCSGSOLID", Group::Solid),
    (Kind::MappedItem, "IFCMAPPEDITEM", Group::Solid),
    (
        Kind::RepresentationMap,
        "IFCREPRESENTATIONMAP",
        Group::Solid,
    ),
    (
        Kind::ArbitraryClosedProfileDef,
        "IFCARBITRARYCLOSEDPROFILEDEF",
        Group::Profile,
    ),
    (
        Kind::ArbitraryProfileDefWithVoids,
        "IFCARBITRARYPROFILEDEFWITHVOIDS",
        Group::Profile,
    ),
    (
        Kind::RectangleProfileDef,
        "IFCRECTANGLEPROFILEDEF",
        Group::Profile,
    ),
    (
        Kind::RectangleHollowProfileDef,
        "IFCRECTANGLEHOLLOWPROFILEDEF",
        Group::Profile,
    ),
    (
        Kind::IShapeProfileDef,
        "IFCISHAPEPROFILEDEF",
        Group::Profile,
    ),
    (Kind::Polyline, "IFCPOLYLINE", Group::Profile),
    (
        Kind::IndexedPolyCurve,
        "IFCINDEXEDPOLYCURVE",
        Group::Profile,
    ),
    (
        Kind::CartesianPointList2d,
        "IFCCARTESIANPOINTLIST2D",
        Group::Profile,
    ),
];

/// The first row with this keyword, in letters of any case.
fn row_with(rows: &[Row], keyword: &[u8]) -> Option<Row>
    ensures { result ≡ find (λ row. is_spelling_of row.1.now keyword.now) rows.now }
{
    rows.iter()
        .copied()
        .find(|row| row.1.as_bytes().eq_ignore_ascii_case(keyword))
}

/// The kind of that row.
pub fn kind_with(rows: &[Row], keyword: &[u8]) -> Option<Kind>
    ensures { result ≡ kind_with (map plain rows.now) keyword.now }
{
    let row = row_with(rows, keyword)?;
    Some(row.0)
}
