ghost use Rattle.std.specs.Prelude.{◌≡◌, ◌≤◌, ◌^◌, length, All, IfOk};
ghost use Rattle.spec_place.specs.Vectors.{IsWithin};
ghost use Rattle.spec_table.specs.Sections.{IsSimple};
ghost use Rattle.spec_entity.specs.Reads.{each};
ghost use Rattle.spec_geometry.specs.Points as places;
ghost use Rattle.spec_geometry.specs.Curves.{member_point};
ghost use Rattle.spec_geometry.specs.Breps.{poly_loop, bound, member_bound};
ghost use Rattle.ifc_numbers.specs.Measures.{file_of};
ghost use Rattle.ifc_numbers.specs.Answers.{ReadsAs};

use entity_reader::{instance_of_kinds, member_instance, members, named_instance};
use ifc_curves::{Points, count_with};
use ifc_kinds::Kind;
use ifc_numbers::{GeomIn, ItemFault, point};
use ix_profile::Loop;
use spec_refusal::Refusal;
use spec_space::Vector;
use spec_step::Param;
use std::alloc::Global;
use step_table::Table;

/// The point that a member of the list of `at` names.
fn member_point(table: &Table<'_>, g: &GeomIn, at: u64, p: &Param) -> Result<Vector, Refusal>
    ensures value { result ≡ member_point (places.point (file_of table.now g.now)) table.now at p.now }
    ensures within { IfOk result (IsWithin (10 ^ 16)) }
{
    let number = member_instance(table, at, 1, p)?;
    point(
        table,
        g,
        instance_of_kinds(table, &[Kind::CartesianPoint], number)?,
    )
}

/// The points that the members of the list of `at` name.
fn points(
    alloc: Global,
    table: &Table<'_>,
    g: &GeomIn,
    at: u64,
    members: &[Param],
) -> Result<Points, ItemFault>
    ensures { ReadsAs (λ points. points) result (each (member_point (places.point (file_of table.now g.now)) table.now at) members.now) }
{
    let mut points = Points::new(alloc);
    for p in members {
        points.push(member_point(table, g, at, p)?)?;
    }
    Ok(points)
}

/// A loop of points (IfcPolyLoop).
fn poly_loop(alloc: Global, table: &Table<'_>, g: &GeomIn, at: u64) -> Result<Loop, ItemFault>
    requires { IsSimple table.now at }
    ensures value { ReadsAs (λ l. l) result (poly_loop (file_of table.now g.now) at) }
    ensures long { IfOk result (λ l. 3 ≤ length l) }
    ensures within { IfOk result (λ l. All (IsWithin (10 ^ 16)) l) }
{
    let points = points(alloc, table, g, at, members(table, at, 1)?)?;
    Ok(points.into_loop(at)?)
}

/// A bound of a face (IfcFaceBound, IfcFaceOuterBound), and the count with a triangle for each of its edges.
fn bound(
    alloc: Global,
    table: &Table<'_>,
    g: &GeomIn,
    at: u64,
    count: u128,
) -> Result<(Loop, u128), ItemFault>
    requires simple { IsSimple table.now at }
    requires count { count ≤ 4096 }
    ensures value { ReadsAs (λ read. read) result (bound (file_of table.now g.now) at count) }
    ensures long { IfOk result (λ read. 3 ≤ length read.0) }
    ensures within { IfOk result (λ read. All (IsWithin (10 ^ 16)) read.0) }
    ensures few { IfOk result (λ read. read.1 ≤ 4096) }
{
    let number = named_instance(table, &[Kind::PolyLoop], at, 1)?;
    let found = poly_loop(alloc, table, g, number)?;
    let reached = count_with(count, found.len() as u128)?;
    Ok((found, reached))
}

/// The bound that a member of the list of a face names.
pub fn member_bound(
    alloc: Global,
    table: &Table<'_>,
    g: &GeomIn,
    face: u64,
    p: &Param,
    count: u128,
) -> Result<(Loop, u128), ItemFault>
    requires { count ≤ 4096 }
    ensures value { ReadsAs (λ read. read) result (member_bound (file_of table.now g.now) face p.now count) }
    ensures long { IfOk result (λ read. 3 ≤ length read.0) }
    ensures within { IfOk result (λ read. All (IsWithin (10 ^ 16)) read.0) }
    ensures few { IfOk result (λ read. read.1 ≤ 4096) }
{
    let member = member_instance(table, face, 1, p)?;
    let number = instance_of_kinds(table, &[Kind::FaceBound, Kind::FaceOuterBound], member)?;
    bound(alloc, table, g, number, count)
}
