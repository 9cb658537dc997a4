ghost use Rattle.std.specs.Prelude.{◌≡◌, ◌≤◌, ◌^◌, length, is_none, All, IfOk};
ghost use Rattle.spec_place.specs.Vectors.{IsWithin};
ghost use Rattle.spec_table.specs.Sections.{IsSimple};
ghost use Rattle.spec_table.specs.Attributes.{attribute};
ghost use Rattle.spec_entity.specs.Reads.{each, members};
ghost use Rattle.spec_geometry.specs.Points as planes;
ghost use Rattle.spec_geometry.specs.Curves.{member_point, polyline, pair, points_by_segments, indexed_curve, curve_points, curve, named_curve};
ghost use Rattle.ifc_numbers.specs.Measures.{file_of};
ghost use Rattle.ifc_numbers.specs.Answers.{ReadsAs, WantsMemoryOnlyWhere};
ghost use Rattle.ifc_curves.specs.Segments.{segmented};
ghost use Rattle.ifc_curves.specs.Points.{listed_points, curve_members, named_members};

use crate::points::Points;
use crate::segments::segments;
use entity_reader::{
    has_kind, instance_of_kinds, member_instance, members, named_instance, refusal_of,
};
use ifc_kinds::Kind;
use ifc_numbers::{GeomIn, ItemFault, length, plane_point};
use ix_profile::Loop;
use spec_refusal::Refusal;
use spec_space::Vector;
use spec_step::Param;
use std::alloc::Global;
use step_table::{Table, param_list};

/// The kinds of curves that are read.
pub const CURVE_KINDS: [Kind; 2] = [Kind::Polyline, Kind::IndexedPolyCurve];

/// The point in the plane that a member of the list of `at` names.
fn member_plane_point(table: &Table<'_>, g: &GeomIn, at: u64, p: &Param) -> Result<Vector, Refusal>
    ensures value { result ≡ member_point (planes.plane_point (file_of table.now g.now)) table.now at p.now }
    ensures within { IfOk result (IsWithin (10 ^ 16)) }
{
    let number = member_instance(table, at, 1, p)?;
    plane_point(
        table,
        g,
        instance_of_kinds(table, &[Kind::CartesianPoint], number)?,
    )
}

/// The points in the plane that the members of the list of `at` name.
fn plane_points(
    alloc: Global,
    table: &Table<'_>,
    g: &GeomIn,
    at: u64,
    members: &[Param],
) -> Result<Points, ItemFault>
    ensures { ReadsAs (λ points. points) result (each (member_point (planes.plane_point (file_of table.now g.now)) table.now at) members.now) }
{
    let mut points = Points::new(alloc);
    for p in members {
        points.push(member_plane_point(table, g, at, p)?)?;
    }
    Ok(points)
}

/// The points of a polyline (IfcPolyline).
fn polyline(alloc: Global, table: &Table<'_>, g: &GeomIn, at: u64) -> Result<Points, ItemFault>
    requires { IsSimple table.now at }
    ensures value { ReadsAs (λ points. points) result (polyline (file_of table.now g.now) at) }
    ensures memory { WantsMemoryOnlyWhere result (members table.now at 1) }
{
    plane_points(alloc, table, g, at, members(table, at, 1)?)
}

/// The point that a list of two lengths is.
fn pair(table: &Table<'_>, g: &GeomIn, at: u64, p: &Param) -> Result<Vector, Refusal>
    ensures value { result ≡ pair (file_of table.now g.now) at p.now }
    ensures within { IfOk result (IsWithin (10 ^ 16)) }
{
    match param_list(at, 1, p) {
        Ok([x, y]) => Ok(Vector {
            x: length(table, g, at, 1, x)?,
            y: length(table, g, at, 1, y)?,
            z: 0,
        }),
        Ok(_) => Err(Refusal::BadAttribute { at, position: 1 }),
        Err(fault) => Err(refusal_of(fault)),
    }
}

/// The points that lists of two lengths are.
fn pairs(
    alloc: Global,
    table: &Table<'_>,
    g: &GeomIn,
    at: u64,
    members: &[Param],
) -> Result<Points, ItemFault>
    ensures { ReadsAs (λ points. points) result (each (pair (file_of table.now g.now) at) members.now) }
{
    let mut points = Points::new(alloc);
    for p in members {
        points.push(pair(table, g, at, p)?)?;
    }
    Ok(points)
}

/// Whether an attribute is unset.
fn is_unset(table: &Table<'_>, at: u64, position: usize) -> bool
    requires simple { IsSimple table.now at }
    requires counted { 1 ≤ position }
    ensures { result ≡ is_none (attribute table.now at position) }
{
    matches!(table.attr_list(at, position), Ok(None))
}

/// The points that the segments of a curve name.
fn points_of_segments(
    alloc: Global,
    table: &Table<'_>,
    at: u64,
    points: &Points,
) -> Result<Points, ItemFault>
    requires { IsSimple table.now at }
    ensures { ReadsAs (λ points. points) result (segmented table.now at points.now) }
{
    let members = members(table, at, 2)?;
    let numbers = segments(alloc, table, at, points.len(), members)?;
    Ok(points.all_numbered(alloc, &numbers)?)
}

/// The points of a curve of segments: all points in order where its segments are unset.
fn points_by_segments(
    alloc: Global,
    table: &Table<'_>,
    at: u64,
    points: Points,
) -> Result<Points, ItemFault>
    requires { IsSimple table.now at }
    ensures { ReadsAs (λ points. points) result (points_by_segments table.now at points (attribute table.now at 2)) }
{
    if is_unset(table, at, 2) {
        return Ok(points);
    }
    points_of_segments(alloc, table, at, &points)
}

/// The points of a curve of segments (IfcIndexedPolyCurve), whose list (IfcCartesianPointList2D) has them all.
fn indexed_curve(alloc: Global, table: &Table<'_>, g: &GeomIn, at: u64) -> Result<Points, ItemFault>
    requires { IsSimple table.now at }
    ensures value { ReadsAs (λ points. points) result (indexed_curve (file_of table.now g.now) at) }
    ensures memory { WantsMemoryOnlyWhere result (listed_points table.now at) }
{
    let list = named_instance(table, &[Kind::CartesianPointList2d], at, 1)?;
    let listed = members(table, list, 1)?;
    let points = pairs(alloc, table, g, list, listed)?;
    points_by_segments(alloc, table, at, points)
}

/// The points of a curve.
fn curve_points(alloc: Global, table: &Table<'_>, g: &GeomIn, at: u64) -> Result<Points, ItemFault>
    requires { IsSimple table.now at }
    ensures value { ReadsAs (λ points. points) result (curve_points (file_of table.now g.now) at) }
    ensures memory { WantsMemoryOnlyWhere result (curve_members table.now at) }
{
    if has_kind(table, at, Kind::Polyline) {
        return polyline(alloc, table, g, at);
    }
    indexed_curve(alloc, table, g, at)
}

/// The loop of a curve (IfcPolyline, IfcIndexedPolyCurve) in the plane, in nanometres: a last point that equals the first is
/// dropped, and an open curve is closed by a straight edge (a rule of this project).
///
/// # Errors
///
/// The first refusal in the order of reading, or `NoMemory`: only where the list in which its points stand is read and has one.
pub fn curve(alloc: Global, table: &Table<'_>, g: &GeomIn, at: u64) -> Result<Loop, ItemFault>
    requires { IsSimple table.now at }
    ensures value { ReadsAs (λ l. l) result (curve (file_of table.now g.now) at) }
    ensures long { IfOk result (λ l. 3 ≤ length l) }
    ensures within { IfOk result (λ l. All (IsWithin (10 ^ 16)) l) }
    ensures memory { WantsMemoryOnlyWhere result (curve_members table.now at) }
{
    let points = curve_points(alloc, table, g, at)?;
    Ok(points.into_loop(at)?)
}

/// The loop of the curve that a wanted attribute names.
///
/// # Errors
///
/// The first refusal in the order of reading, or `NoMemory`: only where the list in which its points stand is read and has one.
pub fn named_curve(
    alloc: Global,
    table: &Table<'_>,
    g: &GeomIn,
    at: u64,
    position: usize,
) -> Result<Loop, ItemFault>
    requires simple { IsSimple table.now at }
    requires counted { 1 ≤ position }
    ensures value { ReadsAs (λ l. l) result (named_curve (file_of table.now g.now) at position) }
    ensures long { IfOk result (λ l. 3 ≤ length l) }
    ensures within { IfOk result (λ l. All (IsWithin (10 ^ 16)) l) }
    ensures memory { WantsMemoryOnlyWhere result (named_members table.now at position) }
{
    let number = named_instance(table, &CURVE_KINDS, at, position)?;
    curve(alloc, table, g, number)
}
