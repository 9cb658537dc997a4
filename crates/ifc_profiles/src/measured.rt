ghost use Rattle.std.specs.Prelude.{◌≡◌, ◌≤◌, ◌^◌, ◌*◌, ◌≤ℤ◌, pos, IfOk};
ghost use Rattle.spec_table.specs.Sections.{IsSimple};
ghost use Rattle.spec_geometry.specs.Profiles.{rectangle_profile, positive_below, wall_thickness, hollow_profile, i_shape_profile};
ghost use Rattle.ix_profile.specs.Outlines.{IsExtent, IsOutline};
ghost use Rattle.ifc_numbers.specs.Measures.{file_of};
ghost use Rattle.ifc_numbers.specs.Answers.{ReadsAs};

use crate::loops::profile_loops;
use ifc_axes::{GeomIn, ItemFault, if_plane_axes, positive, zero};
use ix_profile::{Loops, hollow, i_shape, rectangle};
use spec_refusal::Refusal;
use std::alloc::Global;
use step_table::Table;

/// A rectangle (IfcRectangleProfileDef).
pub fn rectangle_profile(
    alloc: Global,
    table: &Table<'_>,
    g: &GeomIn,
    at: u64,
    count: u128,
) -> Result<(Loops, u128), ItemFault>
    requires simple { IsSimple table.now at }
    requires count { count ≤ 4096 }
    ensures value { ReadsAs (λ read. read) result (rectangle_profile (file_of table.now g.now) at count) }
    ensures outline { IfOk result (λ read. IsOutline (3 * 10 ^ 16) read.0) }
    ensures few { IfOk result (λ read. read.1 ≤ 4096) }
{
    let position = if_plane_axes(table, g, at, 3)?;
    let x = positive(table, g, at, 4)?;
    let y = positive(table, g, at, 5)?;
    let loops = rectangle(alloc, x, y)?;
    Ok(profile_loops(count, position, loops)?)
}

/// A thickness in nanometres, of which so many times must be less than a length.
fn positive_below(
    table: &Table<'_>,
    g: &GeomIn,
    at: u64,
    position: usize,
    times: i128,
    most: i128,
) -> Result<i128, Refusal>
    requires simple { IsSimple table.now at }
    requires counted { 1 ≤ position }
    requires low { pos 0 ≤ℤ times }
    requires high { times ≤ℤ pos 2 }
    ensures value { result ≡ positive_below (file_of table.now g.now) at position times most }
    ensures extent { IfOk result IsExtent }
{
    let thickness = positive(table, g, at, position)?;
    if times * thickness < most {
        return Ok(thickness);
    }
    Err(Refusal::BadAttribute { at, position })
}

/// The thickness of the wall of a hollow rectangle.
fn wall_thickness(table: &Table<'_>, g: &GeomIn, at: u64, x: i128, y: i128) -> Result<i128, Refusal>
    requires { IsSimple table.now at }
    ensures value { result ≡ wall_thickness (file_of table.now g.now) at x y }
    ensures extent { IfOk result IsExtent }
{
    let wall = positive_below(table, g, at, 6, 2, x)?;
    if 2 * wall < y {
        return Ok(wall);
    }
    Err(Refusal::BadAttribute { at, position: 6 })
}

/// A hollow rectangle (IfcRectangleHollowProfileDef).
pub fn hollow_profile(
    alloc: Global,
    table: &Table<'_>,
    g: &GeomIn,
    at: u64,
    count: u128,
) -> Result<(Loops, u128), ItemFault>
    requires simple { IsSimple table.now at }
    requires count { count ≤ 4096 }
    ensures value { ReadsAs (λ read. read) result (hollow_profile (file_of table.now g.now) at count) }
    ensures outline { IfOk result (λ read. IsOutline (3 * 10 ^ 16) read.0) }
    ensures few { IfOk result (λ read. read.1 ≤ 4096) }
{
    let position = if_plane_axes(table, g, at, 3)?;
    let x = positive(table, g, at, 4)?;
    let y = positive(table, g, at, 5)?;
    let wall = wall_thickness(table, g, at, x, y)?;
    zero(table, at, 7)?;
    zero(table, at, 8)?;
    let loops = hollow(alloc, x, y, wall)?;
    Ok(profile_loops(count, position, loops)?)
}

/// An I (IfcIShapeProfileDef).
pub fn i_shape_profile(
    alloc: Global,
    table: &Table<'_>,
    g: &GeomIn,
    at: u64,
    count: u128,
) -> Result<(Loops, u128), ItemFault>
    requires simple { IsSimple table.now at }
    requires count { count ≤ 4096 }
    ensures value { ReadsAs (λ read. read) result (i_shape_profile (file_of table.now g.now) at count) }
    ensures outline { IfOk result (λ read. IsOutline (3 * 10 ^ 16) read.0) }
    ensures few { IfOk result (λ read. read.1 ≤ 4096) }
{
    let position = if_plane_axes(table, g, at, 3)?;
    let width = positive(table, g, at, 4)?;
    let depth = positive(table, g, at, 5)?;
    let web = positive_below(table, g, at, 6, 1, width)?;
    let flange = positive_below(table, g, at, 7, 2, depth)?;
    zero(table, at, 8)?;
    zero(table, at, 9)?;
    zero(table, at, 10)?;
    let loops = i_shape(alloc, width, depth, web, flange)?;
    Ok(profile_loops(count, position, loops)?)
}
