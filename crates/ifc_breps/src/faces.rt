ghost use Rattle.std.specs.Prelude.{◌≡◌, ◌≤◌, ◌^◌, length, IfOk};
ghost use Rattle.spec_table.specs.Sections.{IsSimple};
ghost use Rattle.spec_entity.specs.Reads.{members};
ghost use Rattle.entity_reader.specs.Lent.{plain_read};
ghost use Rattle.spec_geometry.specs.Breps.{each_counted, member_bound, face, member_face};
ghost use Rattle.ix_profile.specs.Outlines.{AreLong, AreWithin, IsOutline};
ghost use Rattle.solid_expr.specs.Sides.{face_at};
ghost use Rattle.ifc_numbers.specs.Measures.{file_of};
ghost use Rattle.ifc_numbers.specs.Answers.{ReadsAs};

use crate::bounds::member_bound;
use entity_reader::{instance_of_kinds, member_instance, members};
use ifc_kinds::Kind;
use ifc_numbers::{GeomIn, ItemFault};
use ix_profile::Loops;
use solid_expr::Face;
use spec_refusal::Refusal;
use spec_step::Param;
use std::alloc::Global;
use step_table::Table;

/// The bounds that the members of the list of a face name, and the count with their triangles.
fn bounds(
    alloc: Global,
    table: &Table<'_>,
    g: &GeomIn,
    face: u64,
    members: &[Param],
    count: u128,
) -> Result<(Loops, u128), ItemFault>
    requires { count ≤ 4096 }
    ensures value { ReadsAs (λ read. read) result (each_counted (member_bound (file_of table.now g.now) face) members.now count) }
    ensures all { IfOk result (λ read. length read.0 ≡ length members.now) }
    ensures long { IfOk result (λ read. AreLong read.0) }
    ensures within { IfOk result (λ read. AreWithin (10 ^ 16) read.0) }
    ensures few { IfOk result (λ read. read.1 ≤ 4096) }
{
    let mut loops = Loops::new(alloc);
    let mut reached = count;
    for p in members {
        let (found, more) = member_bound(alloc, table, g, face, p, reached)?;
        loops.push(found)?;
        reached = more;
    }
    Ok((loops, reached))
}

/// The members of a wanted list, of which there is one or more.
fn some_members<'t>(table: &'t Table<'_>, at: u64, position: usize) -> Result<&'t [Param], Refusal>
    requires simple { IsSimple table.now at }
    requires counted { 1 ≤ position }
    ensures value { plain_read result ≡ members table.now at position }
    ensures some { IfOk result (λ ps. 1 ≤ length ps.now) }
{
    members(table, at, position)
}

/// A face by its number and its loops.
fn face_of(at: u64, loops: Loops) -> Face
    requires { IsOutline (10 ^ 16) loops }
    ensures { result ≡ face_at at loops }
{
    Face { at, loops }
}

/// A face (IfcFace), and the count with its triangles.
fn face(
    alloc: Global,
    table: &Table<'_>,
    g: &GeomIn,
    at: u64,
    count: u128,
) -> Result<(Face, u128), ItemFault>
    requires simple { IsSimple table.now at }
    requires count { count ≤ 4096 }
    ensures value { ReadsAs (λ read. read) result (face (file_of table.now g.now) at count) }
    ensures few { IfOk result (λ read. read.1 ≤ 4096) }
{
    let listed = some_members(table, at, 1)?;
    let (loops, reached) = bounds(alloc, table, g, at, listed, count)?;
    Ok((face_of(at, loops), reached))
}

/// The face that a member of the list of a shell names.
pub fn member_face(
    alloc: Global,
    table: &Table<'_>,
    g: &GeomIn,
    shell: u64,
    p: &Param,
    count: u128,
) -> Result<(Face, u128), ItemFault>
    requires { count ≤ 4096 }
    ensures value { ReadsAs (λ read. read) result (member_face (file_of table.now g.now) shell p.now count) }
    ensures few { IfOk result (λ read. read.1 ≤ 4096) }
{
    let member = member_instance(table, shell, 1, p)?;
    face(
        alloc,
        table,
        g,
        instance_of_kinds(table, &[Kind::Face], member)?,
        count,
    )
}
