ghost use Rattle.std.specs.Prelude.{◌≡◌, ◌≤◌, ◌^◌, ◌-◌, ◌*ℤ◌, pos, neg_ℤ, ◌∷◌, [], length, unsigned_abs, All, IfOk};
ghost use Rattle.spec_place.specs.Vectors.{IsWithin};
ghost use Rattle.spec_table.specs.Sections.{IsSimple};
ghost use Rattle.spec_shape.specs.Shapes.{upwards, lifted};
ghost use Rattle.spec_geometry.specs.Solids.{half_space, reach, column, bounded_half_space};
ghost use Rattle.ix_profile.specs.Outlines.{IsOutline};
ghost use Rattle.solid_expr.specs.Views.{shape_of};
ghost use Rattle.ifc_numbers.specs.Measures.{IsGrid, file_of};
ghost use Rattle.ifc_geom.specs.Views.{plain_solid, ReadsSolid};

use crate::joined::joined;
use entity_reader::named_instance;
use ifc_axes::{GeomIn, ItemFault, boolean, map_within, named_axes, within};
use ifc_curves::{count_loop, count_with, named_curve, one_loop};
use ifc_kinds::Kind;
use ix_place::Map;
use ix_profile::{Loop, Loops};
use solid_expr::{Solid, lifted, prism_faces};
use spec_refusal::Refusal;
use spec_solid::BoolOp;
use spec_space::Vector;
use std::alloc::{AllocError, Global};
use step_table::Table;

/// A half-space (IfcHalfSpaceSolid, and IfcBoxedHalfSpace as the same) under a map, and the count with it.
pub fn half_space(
    table: &Table<'_>,
    g: &GeomIn,
    at: u64,
    map: &Map,
    count: u128,
) -> Result<(Solid, u128), Refusal>
    requires simple { IsSimple table.now at }
    requires count { count ≤ 4096 }
    ensures value { plain_solid result ≡ half_space (file_of table.now g.now) at map.now count }
    ensures few { IfOk result (λ read. read.1 ≤ 4096) }
{
    let plane = named_instance(table, &[Kind::Plane], at, 1)?;
    let frame = named_axes(table, g, plane, 1)?;
    let placed = within(at, map, &Map::of_frame(&frame))?;
    let agreement = boolean(table, at, 2)?;
    let reached = count_with(count, 1)?;
    Ok((
        Solid::Half {
            at,
            map: placed,
            agreement,
        },
        reached,
    ))
}

/// 2^19 steps of a grid of so many micrometres, in nanometres: as far as a bounded half-space reaches (a rule of this project).
fn reach(grid: u32) -> i128
    requires { IsGrid grid }
    ensures value { result ≡ reach grid }
    ensures within { unsigned_abs result ≤ 2 ^ 44 }
{
    let nanometres = 524_288 * (1000 * grid as u64);
    nanometres as i128
}

fn opposite(n: i128) -> i128
    requires { unsigned_abs n ≤ 2 ^ 44 }
    ensures value { result ≡ neg_ℤ n }
    ensures within { unsigned_abs result ≤ 2 ^ 44 }
{
    -n
}

/// The sweep along z over twice a height.
fn twice_upwards(height: i128) -> Vector
    requires { unsigned_abs height ≤ 2 ^ 44 }
    ensures value { result ≡ upwards (pos 2 *ℤ height) }
    ensures within { IsWithin (2 ^ 61 - 1) result }
{
    Vector {
        x: 0,
        y: 0,
        z: 2 * height,
    }
}

/// A boundary that is lowered along z.
fn lowered(alloc: Global, boundary: Loop, depth: i128) -> Result<Loops, AllocError>
    requires long { 3 ≤ length boundary }
    requires within { All (IsWithin (10 ^ 16)) boundary }
    requires depth { unsigned_abs depth ≤ 2 ^ 44 }
    ensures value { IfOk result (λ loops. loops ≡ lifted (neg_ℤ depth) (boundary ∷ [])) }
    ensures outline { IfOk result (IsOutline (2 ^ 61 - 1)) }
{
    let loops = one_loop(alloc, boundary)?;
    Ok(lifted(loops, opposite(depth)))
}

/// The sweep of a boundary along z, as far as a bounded half-space reaches both ways.
fn column(alloc: Global, at: u64, grid: u32, map: &Map, boundary: Loop) -> Result<Solid, AllocError>
    requires grid { IsGrid grid }
    requires long { 3 ≤ length boundary }
    requires within { All (IsWithin (10 ^ 16)) boundary }
    ensures { IfOk result (λ solid. shape_of solid ≡ column at grid map.now boundary) }
{
    let reach = reach(grid);
    let loops = lowered(alloc, boundary, reach)?;
    let faces = prism_faces(alloc, at, &loops, &twice_upwards(reach))?;
    Ok(Solid::Faces {
        at,
        map: *map,
        faces,
    })
}

/// A bounded half-space (IfcPolygonalBoundedHalfSpace) under a map, and the count with it and its triangles: the half-space,
/// and what its boundary sweeps.
pub fn bounded_half_space(
    alloc: Global,
    table: &Table<'_>,
    g: &GeomIn,
    at: u64,
    map: &Map,
    count: u128,
) -> Result<(Solid, u128), ItemFault>
    requires simple { IsSimple table.now at }
    requires count { count ≤ 4096 }
    ensures value { ReadsSolid result (bounded_half_space (file_of table.now g.now) at map.now count) }
    ensures few { IfOk result (λ read. read.1 ≤ 4096) }
{
    let (half, reached) = half_space(table, g, at, map, count)?;
    let placed = map_within(table, g, map, at, 3)?;
    let boundary = named_curve(alloc, table, g, at, 4)?;
    let reached = count_loop(reached, &boundary)?;
    let column = column(alloc, at, g.step, &placed, boundary)?;
    Ok((
        joined(alloc, at, BoolOp::Intersection, half, column)?,
        reached,
    ))
}
