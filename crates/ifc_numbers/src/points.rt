ghost use Rattle.std.specs.Prelude.{◌≡◌, ◌≤◌, ◌^◌, ◌∷◌, [], unsigned_abs, IfOk, Ok};
ghost use Rattle.spec_place.specs.Vectors.{IsWithin};
ghost use Rattle.spec_table.specs.Sections.{IsSimple};
ghost use Rattle.spec_refusal.specs.Reads.{next};
ghost use Rattle.spec_entity.specs.Reads.{each};
ghost use Rattle.spec_entity.specs.Points.{ratio};
ghost use Rattle.spec_place.specs.Directions as directions;
ghost use Rattle.spec_geometry.specs.Files as files;
ghost use Rattle.spec_geometry.specs.Files.{placed};
ghost use Rattle.spec_geometry.specs.Points as points;
ghost use Rattle.ifc_numbers.specs.Measures.{file_of};

use crate::faults::refusal_at;
use crate::measures::GeomIn;
use crate::numbers::{length, reference_if_set};
use entity_reader::{instance_of_kinds, members, named_instance, refusal_of};
use ifc_kinds::Kind;
use ix_place::Dir;
use spec_refusal::Refusal;
use spec_space::Vector;
use spec_step::Param;
use step_table::Table;

/// The point of two lengths, in nanometres: its third coordinate is 0.
fn point_of_two(
    table: &Table<'_>,
    g: &GeomIn,
    at: u64,
    x: &Param,
    y: &Param,
) -> Result<Vector, Refusal>
    ensures value { result ≡ next (each (files.length (file_of table.now g.now) at 1) (x.now ∷ y.now ∷ [])) (λ xs. Ok (points.in_space xs)) }
    ensures within { IfOk result (IsWithin (10 ^ 16)) }
{
    Ok(Vector {
        x: length(table, g, at, 1, x)?,
        y: length(table, g, at, 1, y)?,
        z: 0,
    })
}

/// The point of three lengths, in nanometres.
fn point_of_three(
    table: &Table<'_>,
    g: &GeomIn,
    at: u64,
    x: &Param,
    y: &Param,
    z: &Param,
) -> Result<Vector, Refusal>
    ensures value { result ≡ next (each (files.length (file_of table.now g.now) at 1) (x.now ∷ y.now ∷ z.now ∷ [])) (λ xs. Ok (points.in_space xs)) }
    ensures within { IfOk result (IsWithin (10 ^ 16)) }
{
    Ok(Vector {
        x: length(table, g, at, 1, x)?,
        y: length(table, g, at, 1, y)?,
        z: length(table, g, at, 1, z)?,
    })
}

/// A point (IfcCartesianPoint) in nanometres; a third coordinate that is missing is 0.
pub fn point(table: &Table<'_>, g: &GeomIn, at: u64) -> Result<Vector, Refusal>
    requires { IsSimple table.now at }
    ensures value { result ≡ points.point (file_of table.now g.now) at }
    ensures within { IfOk result (IsWithin (10 ^ 16)) }
{
    match members(table, at, 1)? {
        [x, y] => point_of_two(table, g, at, x, y),
        [x, y, z] => point_of_three(table, g, at, x, y, z),
        _ => Err(Refusal::BadAttribute { at, position: 1 }),
    }
}

/// A point (IfcCartesianPoint) in the plane z = 0, in nanometres; a third coordinate is read, and then counts as 0.
pub fn plane_point(table: &Table<'_>, g: &GeomIn, at: u64) -> Result<Vector, Refusal>
    requires { IsSimple table.now at }
    ensures value { result ≡ points.plane_point (file_of table.now g.now) at }
    ensures within { IfOk result (IsWithin (10 ^ 16)) }
{
    let found = point(table, g, at)?;
    Ok(Vector {
        x: found.x,
        y: found.y,
        z: 0,
    })
}

/// The point that a wanted attribute names, in nanometres.
pub fn named_point(
    table: &Table<'_>,
    g: &GeomIn,
    at: u64,
    position: usize,
) -> Result<Vector, Refusal>
    requires simple { IsSimple table.now at }
    requires counted { 1 ≤ position }
    ensures value { result ≡ points.named_point (file_of table.now g.now) at position }
    ensures within { IfOk result (IsWithin (10 ^ 16)) }
{
    let number = named_instance(table, &[Kind::CartesianPoint], at, position)?;
    point(table, g, number)
}

/// A ratio of a direction in units of 10^-12, of a size of at most 10^6.
fn ratio(table: &Table<'_>, at: u64, p: &Param) -> Result<i128, Refusal>
    ensures value { result ≡ ratio table.now at p.now }
    ensures within { IfOk result (λ units. unsigned_abs units ≤ 10 ^ 18) }
{
    match table.param_real(at, 1, p) {
        Ok(units) if units.unsigned_abs() <= 1_000_000_000_000_000_000 => Ok(units),
        Ok(_) => Err(Refusal::NumberTooLarge { at }),
        Err(fault) => Err(refusal_of(fault)),
    }
}

/// Two ratios of a direction in units of 10^-12; the third one is 0.
fn two_ratios(table: &Table<'_>, at: u64, x: &Param, y: &Param) -> Result<Vector, Refusal>
    ensures value { result ≡ next (each (ratio table.now at) (x.now ∷ y.now ∷ [])) (λ rs. Ok (points.in_space rs)) }
    ensures within { IfOk result (IsWithin (10 ^ 18)) }
{
    Ok(Vector {
        x: ratio(table, at, x)?,
        y: ratio(table, at, y)?,
        z: 0,
    })
}

/// Three ratios of a direction in units of 10^-12.
fn three_ratios(
    table: &Table<'_>,
    at: u64,
    x: &Param,
    y: &Param,
    z: &Param,
) -> Result<Vector, Refusal>
    ensures value { result ≡ next (each (ratio table.now at) (x.now ∷ y.now ∷ z.now ∷ [])) (λ rs. Ok (points.in_space rs)) }
    ensures within { IfOk result (IsWithin (10 ^ 18)) }
{
    Ok(Vector {
        x: ratio(table, at, x)?,
        y: ratio(table, at, y)?,
        z: ratio(table, at, z)?,
    })
}

/// The ratios of a direction (IfcDirection) in units of 10^-12; a third one that is missing is 0.
fn ratios(table: &Table<'_>, at: u64) -> Result<Vector, Refusal>
    requires { IsSimple table.now at }
    ensures value { result ≡ next (points.ratios table.now at) (λ rs. Ok (points.in_space rs)) }
    ensures within { IfOk result (IsWithin (10 ^ 18)) }
{
    match members(table, at, 1)? {
        [x, y] => two_ratios(table, at, x, y),
        [x, y, z] => three_ratios(table, at, x, y, z),
        _ => Err(Refusal::BadAttribute { at, position: 1 }),
    }
}

/// The direction of three ratios of an instance, in units of 10^-12.
fn direction_of(at: u64, ratios: &Vector) -> Result<Dir, Refusal>
    requires { IsWithin (10 ^ 18) ratios.now }
    ensures { result ≡ placed at (directions.direction ratios.now) }
{
    Dir::of_triple([ratios.x, ratios.y, ratios.z]).map_err(|fault| refusal_at(at, fault))
}

/// A direction (IfcDirection) in space.
pub fn direction(table: &Table<'_>, at: u64) -> Result<Dir, Refusal>
    requires { IsSimple table.now at }
    ensures { result ≡ points.direction table.now at }
{
    let found = ratios(table, at)?;
    direction_of(at, &found)
}

/// A direction (IfcDirection) in the plane; a third ratio is read, and then counts as 0.
pub fn plane_direction(table: &Table<'_>, at: u64) -> Result<Dir, Refusal>
    requires { IsSimple table.now at }
    ensures { result ≡ points.plane_direction table.now at }
{
    let found = ratios(table, at)?;
    let flat = Vector {
        x: found.x,
        y: found.y,
        z: 0,
    };
    direction_of(at, &flat)
}

/// The direction in space that an attribute names, if it is set.
pub fn if_direction(table: &Table<'_>, at: u64, position: usize) -> Result<Option<Dir>, Refusal>
    requires simple { IsSimple table.now at }
    requires counted { 1 ≤ position }
    ensures { result ≡ points.if_direction points.direction table.now at position }
{
    match reference_if_set(table, at, position)? {
        Some(number) => {
            let named = instance_of_kinds(table, &[Kind::Direction], number)?;
            Ok(Some(direction(table, named)?))
        }
        None => Ok(None),
    }
}

/// The direction in the plane that an attribute names, if it is set.
pub fn if_plane_direction(
    table: &Table<'_>,
    at: u64,
    position: usize,
) -> Result<Option<Dir>, Refusal>
    requires simple { IsSimple table.now at }
    requires counted { 1 ≤ position }
    ensures { result ≡ points.if_direction points.plane_direction table.now at position }
{
    match reference_if_set(table, at, position)? {
        Some(number) => {
            let named = instance_of_kinds(table, &[Kind::Direction], number)?;
            Ok(Some(plane_direction(table, named)?))
        }
        None => Ok(None),
    }
}
