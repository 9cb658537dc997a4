ghost use Rattle.std.specs.Prelude.{◌≡◌, ◌≤◌, ◌^◌, ◌-◌, ◌*◌, ◌*ℤ◌, unsigned_abs, IfOk};
ghost use Rattle.spec_num.specs.Rounding.{round_of};
ghost use Rattle.spec_place.specs.Vectors.{one, IsWithin};
ghost use Rattle.spec_table.specs.Sections.{IsSimple};
ghost use Rattle.spec_geometry.specs.Solids.{sweep, extruded_area_solid, sizes, block, brep};
ghost use Rattle.spec_shape.specs.Shapes.{prism_faces};
ghost use Rattle.ix_profile.specs.Outlines.{IsOutline};
ghost use Rattle.ifc_numbers.specs.Measures.{file_of, IsExtent};
ghost use Rattle.ifc_geom.specs.Views.{ReadsSolid};

use entity_reader::named_instance;
use ifc_axes::{GeomIn, ItemFault, direction, map_within, map_within_if, positive};
use ifc_breps::brep_faces;
use ifc_curves::count_with;
use ifc_kinds::Kind;
use ifc_profiles::named_profile;
use ix_num::round_div;
use ix_place::{Dir, Map};
use ix_profile::Loops;
use solid_expr::{Face, Solid, block_faces, prism_faces};
use spec_refusal::Refusal;
use spec_space::Vector;
use std::alloc::{AllocError, Global};
use step_table::Table;

/// 1, for what is counted in units of 10^-9.
const ONE: i128 = 1_000_000_000;

/// A part of a direction times a depth in nanometres.
fn part_over(depth: i128, part: i128) -> i128
    requires depth { unsigned_abs depth ≤ 10 ^ 16 }
    requires part { unsigned_abs part ≤ 10 ^ 9 }
    ensures value { result ≡ round_of (depth *ℤ part) one }
    ensures within { unsigned_abs result ≤ 2 ^ 61 - 1 }
{
    round_div(depth * part, ONE)
}

/// A direction times a depth in nanometres.
fn sweep(along: &Dir, depth: i128) -> Vector
    requires { unsigned_abs depth ≤ 10 ^ 16 }
    ensures value { result ≡ sweep along.now depth }
    ensures within { IsWithin (2 ^ 61 - 1) result }
{
    Vector {
        x: part_over(depth, along.v.x),
        y: part_over(depth, along.v.y),
        z: part_over(depth, along.v.z),
    }
}

/// The faces of a profile that is swept along a direction.
fn swept_faces(
    alloc: Global,
    at: u64,
    loops: &Loops,
    along: &Dir,
    depth: i128,
) -> Result<Vec<Face>, AllocError>
    requires outline { IsOutline (3 * 10 ^ 16) loops.now }
    requires depth { IsExtent depth }
    ensures { IfOk result (λ faces. faces.items ≡ prism_faces at loops.now (sweep along.now depth)) }
{
    prism_faces(alloc, at, loops, &sweep(along, depth))
}

/// The sweep of a profile (IfcExtrudedAreaSolid) under a map, and the count with its triangles.
pub fn extruded_area_solid(
    alloc: Global,
    table: &Table<'_>,
    g: &GeomIn,
    at: u64,
    map: &Map,
    count: u128,
) -> Result<(Solid, u128), ItemFault>
    requires simple { IsSimple table.now at }
    requires count { count ≤ 4096 }
    ensures value { ReadsSolid result (extruded_area_solid (file_of table.now g.now) at map.now count) }
    ensures few { IfOk result (λ read. read.1 ≤ 4096) }
{
    let (swept, reached) = named_profile(alloc, table, g, at, 1, count)?;
    let placed = map_within_if(table, g, map, at, 2)?;
    let direction_at = named_instance(table, &[Kind::Direction], at, 3)?;
    let along = direction(table, direction_at)?;
    let depth = positive(table, g, at, 4)?;
    let faces = swept_faces(alloc, at, &swept, &along, depth)?;
    Ok((
        Solid::Faces {
            at,
            map: placed,
            faces,
        },
        reached,
    ))
}

/// The three extents of a block, in nanometres.
fn sizes(table: &Table<'_>, g: &GeomIn, at: u64) -> Result<Vector, Refusal>
    requires { IsSimple table.now at }
    ensures value { result ≡ sizes (file_of table.now g.now) at }
    ensures within { IfOk result (IsWithin (2 ^ 61 - 1)) }
{
    Ok(Vector {
        x: positive(table, g, at, 2)?,
        y: positive(table, g, at, 3)?,
        z: positive(table, g, at, 4)?,
    })
}

/// A block (IfcBlock) under a map, and the count with its triangles.
pub fn block(
    alloc: Global,
    table: &Table<'_>,
    g: &GeomIn,
    at: u64,
    map: &Map,
    count: u128,
) -> Result<(Solid, u128), ItemFault>
    requires simple { IsSimple table.now at }
    requires count { count ≤ 4096 }
    ensures value { ReadsSolid result (block (file_of table.now g.now) at map.now count) }
    ensures few { IfOk result (λ read. read.1 ≤ 4096) }
{
    let placed = map_within(table, g, map, at, 1)?;
    let size = sizes(table, g, at)?;
    let reached = count_with(count, 24)?;
    let faces = block_faces(alloc, at, &size)?;
    Ok((
        Solid::Faces {
            at,
            map: placed,
            faces,
        },
        reached,
    ))
}

/// A faceted brep (IfcFacetedBrep, IfcFacetedBrepWithVoids) under a map, and the count with its triangles.
pub fn brep(
    alloc: Global,
    table: &Table<'_>,
    g: &GeomIn,
    at: u64,
    map: &Map,
    count: u128,
) -> Result<(Solid, u128), ItemFault>
    requires simple { IsSimple table.now at }
    requires count { count ≤ 4096 }
    ensures value { ReadsSolid result (brep (file_of table.now g.now) at map.now count) }
    ensures few { IfOk result (λ read. read.1 ≤ 4096) }
{
    let (faces, reached) = brep_faces(alloc, table, g, at, count)?;
    Ok((
        Solid::Faces {
            at,
            map: *map,
            faces,
        },
        reached,
    ))
}
