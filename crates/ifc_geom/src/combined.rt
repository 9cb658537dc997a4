ghost use Rattle.std.specs.Prelude.{◌≡◌, ◌≤◌, ◌-◌, IfOk};
ghost use Rattle.spec_table.specs.Sections.{IsSimple};
ghost use Rattle.spec_entity.specs.Reads.{instance_of_kinds};
ghost use Rattle.spec_entity.specs.Operators as operators;
ghost use Rattle.spec_geometry.specs.Breps.{each_counted};
ghost use Rattle.spec_geometry.specs.Solids.{solid, solid_by, operand, boolean_result, csg_solid, member_solid, mapped, mapped_item};
ghost use Rattle.ifc_numbers.specs.Measures.{file_of};
ghost use Rattle.ifc_numbers.specs.Answers.{WantsMemoryOnlyWhere};
ghost use Rattle.ifc_geom.specs.Views.{ReadsSolid, ReadsSolids, memory_kinds, takes_memory};

use crate::half_spaces::{bounded_half_space, half_space};
use crate::joined::joined;
use crate::primitives::{block, brep, extruded_area_solid};
use entity_reader::{has_kind, is_one_of, member_instance, members, named_instance, refusal_of};
use ifc_axes::{GeomIn, ItemFault, named_axes, operator as axes_operator, wanted_instance, within};
use ifc_kinds::Kind;
use ix_place::{Frame, Map};
use solid_expr::Solid;
use spec_refusal::Refusal;
use spec_solid::BoolOp;
use spec_step::Param;
use sqlite_items::Items;
use std::alloc::Global;
use step_table::Table;

/// How deep solids may stand one in another (a limit of this project).
const MOST_DEPTH: u32 = 64;

/// The operator of a Boolean result.
fn operator(table: &Table<'_>, at: u64) -> Result<BoolOp, Refusal>
    requires simple { IsSimple table.now at }
    ensures { result ≡ operators.operator table.now at }
{
    match table.attr_enum(at, 1) {
        Ok(Some(text)) if text.eq_ignore_ascii_case(b"UNION") => Ok(BoolOp::Union),
        Ok(Some(text)) if text.eq_ignore_ascii_case(b"INTERSECTION") => Ok(BoolOp::Intersection),
        Ok(Some(text)) if text.eq_ignore_ascii_case(b"DIFFERENCE") => Ok(BoolOp::Difference),
        Ok(_) => Err(Refusal::BadAttribute { at, position: 1 }),
        Err(fault) => Err(refusal_of(fault)),
    }
}

/// The map of a mapped item: what surrounds it, then the operator, then the axes of its origin (a rule of this project).
fn mapped(table: &Table<'_>, g: &GeomIn, at: u64, map: &Map, origin: &Frame) -> Result<Map, Refusal>
    requires { IsSimple table.now at }
    ensures { result ≡ mapped (file_of table.now g.now) at map.now origin.now }
{
    let kinds = [
        Kind::CartesianTransformationOperator3d,
        Kind::CartesianTransformationOperator3dNonUniform,
    ];
    let target = named_instance(table, &kinds, at, 2)?;
    let moved = axes_operator(table, g, target)?;
    let surrounding = within(target, map, &moved)?;
    within(at, &surrounding, &Map::of_frame(origin))
}

/// The solid of an instance that stands in others, where so many more may stand one in another.
#[cycle(solid)]
fn solid(
    alloc: Global,
    table: &Table<'_>,
    g: &GeomIn,
    at: u64,
    map: &Map,
    deeper: u32,
    count: u128,
) -> Result<(Solid, u128), ItemFault>
    requires count { count ≤ 4096 }
    ensures value { ReadsSolid result (solid deeper (file_of table.now g.now) at map.now count) }
    ensures few { IfOk result (λ read. read.1 ≤ 4096) }
    ensures memory { WantsMemoryOnlyWhere result (takes_memory deeper table.now at) }
{
    if deeper == 0 {
        return Err(ItemFault::Refused(Refusal::TooDeep { at }));
    }
    solid_by(alloc, table, g, at, map, deeper - 1, count)
}

/// The solid of an instance, in which so many may stand one in another.
#[cycle(solid)]
fn solid_by(
    alloc: Global,
    table: &Table<'_>,
    g: &GeomIn,
    at: u64,
    map: &Map,
    deeper: u32,
    count: u128,
) -> Result<(Solid, u128), ItemFault>
    requires count { count ≤ 4096 }
    ensures value { ReadsSolid result (solid_by (file_of table.now g.now) (solid deeper (file_of table.now g.now)) at map.now count) }
    ensures few { IfOk result (λ read. read.1 ≤ 4096) }
    ensures memory { WantsMemoryOnlyWhere result (instance_of_kinds table.now memory_kinds at) }
{
    if has_kind(table, at, Kind::ExtrudedAreaSolid) {
        return extruded_area_solid(alloc, table, g, at, map, count);
    }
    if has_kind(table, at, Kind::Block) {
        return block(alloc, table, g, at, map, count);
    }
    if is_one_of(table, &[Kind::FacetedBrep, Kind::FacetedBrepWithVoids], at) {
        return brep(alloc, table, g, at, map, count);
    }
    if is_one_of(table, &[Kind::HalfSpaceSolid, Kind::BoxedHalfSpace], at) {
        return Ok(half_space(table, g, at, map, count)?);
    }
    if has_kind(table, at, Kind::PolygonalBoundedHalfSpace) {
        return bounded_half_space(alloc, table, g, at, map, count);
    }
    if is_one_of(
        table,
        &[Kind::BooleanResult, Kind::BooleanClippingResult],
        at,
    ) {
        return boolean_result(alloc, table, g, at, map, deeper, count);
    }
    if has_kind(table, at, Kind::CsgSolid) {
        return csg_solid(alloc, table, g, at, map, deeper, count);
    }
    if has_kind(table, at, Kind::MappedItem) {
        return mapped_item(alloc, table, g, at, map, deeper, count);
    }
    Err(ItemFault::Refused(Refusal::Unsupported { at }))
}

/// The solid that a wanted attribute names, and the count with it.
#[cycle(solid)]
fn operand(
    alloc: Global,
    table: &Table<'_>,
    g: &GeomIn,
    at: u64,
    position: usize,
    map: &Map,
    deeper: u32,
    count: u128,
) -> Result<(Solid, u128), ItemFault>
    requires simple { IsSimple table.now at }
    requires counted { 1 ≤ position }
    requires count { count ≤ 4096 }
    ensures value { ReadsSolid result (operand (file_of table.now g.now) (solid deeper (file_of table.now g.now)) at position map.now count) }
    ensures few { IfOk result (λ read. read.1 ≤ 4096) }
{
    let number = wanted_instance(table, at, position)?;
    solid(alloc, table, g, number, map, deeper, count)
}

/// Two solids combined (IfcBooleanResult, IfcBooleanClippingResult).
#[cycle(solid)]
fn boolean_result(
    alloc: Global,
    table: &Table<'_>,
    g: &GeomIn,
    at: u64,
    map: &Map,
    deeper: u32,
    count: u128,
) -> Result<(Solid, u128), ItemFault>
    requires simple { IsSimple table.now at }
    requires count { count ≤ 4096 }
    ensures value { ReadsSolid result (boolean_result (file_of table.now g.now) (solid deeper (file_of table.now g.now)) at map.now count) }
    ensures few { IfOk result (λ read. read.1 ≤ 4096) }
{
    let operator = operator(table, at)?;
    let (first, reached) = operand(alloc, table, g, at, 2, map, deeper, count)?;
    let (second, reached) = operand(alloc, table, g, at, 3, map, deeper, reached)?;
    Ok((joined(alloc, at, operator, first, second)?, reached))
}

/// A tree of solids (IfcCsgSolid): a union whose one part is its root.
#[cycle(solid)]
fn csg_solid(
    alloc: Global,
    table: &Table<'_>,
    g: &GeomIn,
    at: u64,
    map: &Map,
    deeper: u32,
    count: u128,
) -> Result<(Solid, u128), ItemFault>
    requires simple { IsSimple table.now at }
    requires count { count ≤ 4096 }
    ensures value { ReadsSolid result (csg_solid (file_of table.now g.now) (solid deeper (file_of table.now g.now)) at map.now count) }
    ensures few { IfOk result (λ read. read.1 ≤ 4096) }
{
    let (root, reached) = operand(alloc, table, g, at, 1, map, deeper, count)?;
    let mut parts = Items::new(alloc);
    parts.push(root)?;
    Ok((Solid::Union { at, parts }, reached))
}

/// The solids that the members of the items of a representation name, under a map.
#[cycle(solid)]
fn member_solids(
    alloc: Global,
    table: &Table<'_>,
    g: &GeomIn,
    representation: u64,
    map: &Map,
    members: &[Param],
    deeper: u32,
    count: u128,
) -> Result<(Items<Solid>, u128), ItemFault>
    requires count { count ≤ 4096 }
    ensures value { ReadsSolids result (each_counted (member_solid (file_of table.now g.now) (solid deeper (file_of table.now g.now)) representation map.now) members.now count) }
    ensures few { IfOk result (λ read. read.1 ≤ 4096) }
{
    let mut parts = Items::new(alloc);
    let mut reached = count;
    for p in members {
        let number = member_instance(table, representation, 4, p)?;
        let (part, more) = solid(alloc, table, g, number, map, deeper, reached)?;
        parts.push(part)?;
        reached = more;
    }
    Ok((parts, reached))
}

/// The items of a representation under the map of a mapped item (IfcMappedItem, IfcRepresentationMap), united.
#[cycle(solid)]
fn mapped_item(
    alloc: Global,
    table: &Table<'_>,
    g: &GeomIn,
    at: u64,
    map: &Map,
    deeper: u32,
    count: u128,
) -> Result<(Solid, u128), ItemFault>
    requires simple { IsSimple table.now at }
    requires count { count ≤ 4096 }
    ensures value { ReadsSolid result (mapped_item (file_of table.now g.now) (solid deeper (file_of table.now g.now)) at map.now count) }
    ensures few { IfOk result (λ read. read.1 ≤ 4096) }
{
    let source = named_instance(table, &[Kind::RepresentationMap], at, 1)?;
    let origin = named_axes(table, g, source, 1)?;
    let representation = named_instance(table, &[Kind::ShapeRepresentation], source, 2)?;
    let members = members(table, representation, 4)?;
    let inwards = mapped(table, g, at, map, &origin)?;
    let (parts, reached) = member_solids(
        alloc,
        table,
        g,
        representation,
        &inwards,
        members,
        deeper,
        count,
    )?;
    Ok((Solid::Union { at, parts }, reached))
}

/// The solid of an instance of the file under a map, at a depth that counts from 1, and the count of the element's triangles
/// and half-spaces with those of the solid; the count that is passed is at most 4096. Solids stand at most 64 deep (a limit of
/// this project).
///
/// # Errors
///
/// The first refusal in the order of reading, `TooDeep` exactly where the depth passes 64, or `NoMemory`: not for a half-space
/// without bounds, an instance of another kind than a solid's, or a depth past 64.
pub fn read_solid(
    alloc: Global,
    table: &Table<'_>,
    g: &GeomIn,
    at: u64,
    map: &Map,
    depth: u32,
    count: u128,
) -> Result<(Solid, u128), ItemFault>
    requires { count ≤ 4096 }
    ensures value { ReadsSolid result (solid (65 - depth) (file_of table.now g.now) at map.now count) }
    ensures few { IfOk result (λ read. read.1 ≤ 4096) }
    ensures memory { WantsMemoryOnlyWhere result (takes_memory (65 - depth) table.now at) }
{
    solid(
        alloc,
        table,
        g,
        at,
        map,
        (MOST_DEPTH + 1).saturating_sub(depth),
        count,
    )
}
