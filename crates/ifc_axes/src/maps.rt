ghost use Rattle.std.specs.Prelude.{◌≡◌, ◌≤◌, ◌^◌};
ghost use Rattle.spec_table.specs.Sections.{IsSimple};
ghost use Rattle.spec_place.specs.Vectors.{vector_of, IsWithin};
ghost use Rattle.spec_place.specs.Maps.{scales};
ghost use Rattle.spec_geometry.specs.Axes.{within, map_within, map_within_if, further_scale, operator};
ghost use Rattle.ifc_numbers.specs.Measures.{file_of};

use crate::frames::{coordinates, if_axes, named_axes};
use entity_reader::has_kind;
use ifc_kinds::Kind;
use ifc_numbers::{GeomIn, if_direction, named_point, number_if_set, refusal_at};
use ix_place::Map;
use spec_refusal::Refusal;
use step_table::Table;

/// The map that stands as another one within a map; a refusal names the instance that adds it.
pub fn within(at: u64, map: &Map, inner: &Map) -> Result<Map, Refusal>
    ensures { result ≡ within at map.now inner.now }
{
    map.then(inner).map_err(|fault| refusal_at(at, fault))
}

/// The map with the axes that a wanted attribute names within it.
pub fn map_within(
    table: &Table<'_>,
    g: &GeomIn,
    map: &Map,
    at: u64,
    position: usize,
) -> Result<Map, Refusal>
    requires simple { IsSimple table.now at }
    requires counted { 1 ≤ position }
    ensures { result ≡ map_within (file_of table.now g.now) map.now at position }
{
    let frame = named_axes(table, g, at, position)?;
    within(at, map, &Map::of_frame(&frame))
}

/// The map with the axes that an attribute names within it, if it is set, and else the map itself.
pub fn map_within_if(
    table: &Table<'_>,
    g: &GeomIn,
    map: &Map,
    at: u64,
    position: usize,
) -> Result<Map, Refusal>
    requires simple { IsSimple table.now at }
    requires counted { 1 ≤ position }
    ensures { result ≡ map_within_if (file_of table.now g.now) map.now at position }
{
    match if_axes(table, g, at, position)? {
        Some(frame) => within(at, map, &Map::of_frame(&frame)),
        None => Ok(*map),
    }
}

/// A scale of an operator that is not uniform, if it is set.
fn further_scale(table: &Table<'_>, at: u64, position: usize) -> Result<Option<i128>, Refusal>
    requires simple { IsSimple table.now at }
    requires counted { 1 ≤ position }
    ensures { result ≡ further_scale table.now at position }
{
    if has_kind(table, at, Kind::CartesianTransformationOperator3dNonUniform) {
        number_if_set(table, at, position)
    } else {
        Ok(None)
    }
}

/// The three scales of an operator in units of 10^-12: the first is 1 where it is unset, and the others are as the first.
fn scales(first: Option<i128>, second: Option<i128>, third: Option<i128>) -> [i128; 3]
    ensures { vector_of result ≡ scales first second third }
{
    let scale = first.unwrap_or(1_000_000_000_000);
    [scale, second.unwrap_or(scale), third.unwrap_or(scale)]
}

/// The map of a transformation operator (IfcCartesianTransformationOperator3D, and its form that is not uniform).
pub fn operator(table: &Table<'_>, g: &GeomIn, at: u64) -> Result<Map, Refusal>
    requires { IsSimple table.now at }
    ensures { result ≡ operator (file_of table.now g.now) at }
{
    let first = if_direction(table, at, 1)?;
    let second = if_direction(table, at, 2)?;
    let origin = named_point(table, g, at, 3)?;
    let scale = number_if_set(table, at, 4)?;
    let third = if_direction(table, at, 5)?;
    let scale2 = further_scale(table, at, 6)?;
    let scale3 = further_scale(table, at, 7)?;
    let scales = scales(scale, scale2, scale3);
    Map::of_operator(coordinates(&origin), [first, second, third], scales).map_err(
        |fault| refusal_at(at, fault),
    )
}
