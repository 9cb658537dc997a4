ghost use Rattle.std.specs.Prelude.{◌≡◌, ◌≤◌, ◌++◌, ◌∷◌, [], OnOk, IfOk};
ghost use Rattle.spec_table.specs.Sections.{IsSimple};
ghost use Rattle.spec_entity.specs.Reads.{members};
ghost use Rattle.spec_geometry.specs.Breps.{each_counted, member_face, shell, outer_shell, member_shell, faces_with_voids, brep_faces};
ghost use Rattle.ifc_numbers.specs.Measures.{file_of};
ghost use Rattle.ifc_numbers.specs.Answers.{WantsMemoryOnlyWhere};
ghost use Rattle.ifc_breps.specs.Shells.{outer_members, with_shells, ReadsFaces};

use crate::faces::member_face;
use entity_reader::{has_kind, instance_of_kinds, member_instance, members, named_instance};
use ifc_kinds::Kind;
use ifc_numbers::{GeomIn, ItemFault};
use solid_expr::Face;
use spec_step::Param;
use std::alloc::{AllocError, Global};
use step_table::Table;

fn push(faces: &mut Vec<Face>, face: Face) -> Result<(), AllocError>
    ensures { OnOk result (faces.new.items ≡ faces.old.items ++ face ∷ []) }
{
    faces.push(face)?;
    Ok(())
}

/// The faces that the members of the list of a shell name, and the count with their triangles.
fn faces(
    alloc: Global,
    table: &Table<'_>,
    g: &GeomIn,
    shell: u64,
    members: &[Param],
    count: u128,
) -> Result<(Vec<Face>, u128), ItemFault>
    requires { count ≤ 4096 }
    ensures value { ReadsFaces result (each_counted (member_face (file_of table.now g.now) shell) members.now count) }
    ensures few { IfOk result (λ read. read.1 ≤ 4096) }
{
    let mut faces = Vec::new(alloc);
    let mut reached = count;
    for p in members {
        let (found, more) = member_face(alloc, table, g, shell, p, reached)?;
        push(&mut faces, found)?;
        reached = more;
    }
    Ok((faces, reached))
}

/// The faces of a shell (IfcClosedShell), and the count with their triangles.
fn shell(
    alloc: Global,
    table: &Table<'_>,
    g: &GeomIn,
    at: u64,
    count: u128,
) -> Result<(Vec<Face>, u128), ItemFault>
    requires simple { IsSimple table.now at }
    requires count { count ≤ 4096 }
    ensures value { ReadsFaces result (shell (file_of table.now g.now) at count) }
    ensures few { IfOk result (λ read. read.1 ≤ 4096) }
    ensures memory { WantsMemoryOnlyWhere result (members table.now at 1) }
{
    faces(alloc, table, g, at, members(table, at, 1)?, count)
}

/// The faces of the outer shell of a brep.
fn outer_shell(
    alloc: Global,
    table: &Table<'_>,
    g: &GeomIn,
    at: u64,
    count: u128,
) -> Result<(Vec<Face>, u128), ItemFault>
    requires simple { IsSimple table.now at }
    requires count { count ≤ 4096 }
    ensures value { ReadsFaces result (outer_shell (file_of table.now g.now) at count) }
    ensures few { IfOk result (λ read. read.1 ≤ 4096) }
    ensures memory { WantsMemoryOnlyWhere result (outer_members table.now at) }
{
    let number = named_instance(table, &[Kind::ClosedShell], at, 1)?;
    shell(alloc, table, g, number, count)
}

/// The faces of the shell that a member of the list of voids names.
fn member_shell(
    alloc: Global,
    table: &Table<'_>,
    g: &GeomIn,
    at: u64,
    p: &Param,
    count: u128,
) -> Result<(Vec<Face>, u128), ItemFault>
    requires { count ≤ 4096 }
    ensures value { ReadsFaces result (member_shell (file_of table.now g.now) at p.now count) }
    ensures few { IfOk result (λ read. read.1 ≤ 4096) }
{
    let member = member_instance(table, at, 2, p)?;
    let number = instance_of_kinds(table, &[Kind::ClosedShell], member)?;
    shell(alloc, table, g, number, count)
}

/// The faces that stand before, and then those of the shells that a list of voids names.
fn with_shells(
    alloc: Global,
    table: &Table<'_>,
    g: &GeomIn,
    at: u64,
    before: Vec<Face>,
    members: &[Param],
    count: u128,
) -> Result<(Vec<Face>, u128), ItemFault>
    requires { count ≤ 4096 }
    ensures value { ReadsFaces result (with_shells (file_of table.now g.now) at before.items members.now count) }
    ensures few { IfOk result (λ read. read.1 ≤ 4096) }
{
    let mut faces = before;
    let mut reached = count;
    for p in members {
        let (mut found, more) = member_shell(alloc, table, g, at, p, reached)?;
        faces.append(&mut found)?;
        reached = more;
    }
    Ok((faces, reached))
}

/// The faces of the outer shell, and then those of the voids (IfcFacetedBrepWithVoids).
fn faces_with_voids(
    alloc: Global,
    table: &Table<'_>,
    g: &GeomIn,
    at: u64,
    count: u128,
) -> Result<(Vec<Face>, u128), ItemFault>
    requires simple { IsSimple table.now at }
    requires count { count ≤ 4096 }
    ensures value { ReadsFaces result (faces_with_voids (file_of table.now g.now) at count) }
    ensures few { IfOk result (λ read. read.1 ≤ 4096) }
    ensures memory { WantsMemoryOnlyWhere result (outer_members table.now at) }
{
    let (outer, reached) = outer_shell(alloc, table, g, at, count)?;
    with_shells(alloc, table, g, at, outer, members(table, at, 2)?, reached)
}

/// The faces of a brep (IfcFacetedBrep, IfcFacetedBrepWithVoids), in nanometres, and the count of triangles and half-spaces with
/// one triangle more for each edge of a loop. The orientation of a bound is not looked at (a rule of this project).
///
/// # Errors
///
/// The first refusal in the order of reading, or `NoMemory`: only where the list of the outer shell is read and has a member.
pub fn brep_faces(
    alloc: Global,
    table: &Table<'_>,
    g: &GeomIn,
    at: u64,
    count: u128,
) -> Result<(Vec<Face>, u128), ItemFault>
    requires simple { IsSimple table.now at }
    requires count { count ≤ 4096 }
    ensures value { ReadsFaces result (brep_faces (file_of table.now g.now) at count) }
    ensures few { IfOk result (λ read. read.1 ≤ 4096) }
    ensures memory { WantsMemoryOnlyWhere result (outer_members table.now at) }
{
    if has_kind(table, at, Kind::FacetedBrep) {
        return outer_shell(alloc, table, g, at, count);
    }
    faces_with_voids(alloc, table, g, at, count)
}
