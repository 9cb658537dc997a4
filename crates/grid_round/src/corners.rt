ghost use Rattle.std.specs.Prelude.{◌≡◌, ◌≤◌, ◌^◌, ◌-◌, All, map, IfOk};
ghost use Rattle.std.specs.List.{list_all};
ghost use Rattle.spec_place.specs.Vectors.{IsWithin};
ghost use Rattle.spec_place.specs.Maps.{corner};
ghost use Rattle.spec_grid.specs.Rounded.{is_near};

use ix_place::Map;
use spec_space::Vector;
use std::alloc::{AllocError, Global};

/// The greatest size of a coordinate, 2^20 grid steps.
const MOST_STEPS: u128 = 1_048_576;

/// The corner of a point on the grid.
fn corner(under: &Map, step: u32, point: &Vector) -> Vector
    requires low { 1 ≤ step }
    requires high { step ≤ 10000 }
    requires point { IsWithin (2 ^ 62 - 1) point.now }
    ensures { result ≡ corner under.now step point.now }
{
    let [x, y, z] = under.corner(step, [point.x as i64, point.y as i64, point.z as i64]);
    Vector { x, y, z }
}

/// The corners of points on the grid.
pub fn corners(
    alloc: Global,
    under: &Map,
    step: u32,
    points: &[Vector],
) -> Result<Vec<Vector>, AllocError>
    requires low { 1 ≤ step }
    requires high { step ≤ 10000 }
    requires points { All (IsWithin (2 ^ 62 - 1)) points.now }
    ensures { IfOk result (λ rounded. rounded.items ≡ map (corner under.now step) points.now) }
{
    let mut rounded = Vec::new(alloc);
    for point in points {
        rounded.push(corner(under, step, point))?;
    }
    Ok(rounded)
}

/// Whether no coordinate has a size above 2^20 steps.
pub fn is_near(place: &Vector) -> bool
    ensures { result ≡ is_near place.now }
{
    place.x.unsigned_abs() <= MOST_STEPS
        && place.y.unsigned_abs() <= MOST_STEPS
        && place.z.unsigned_abs() <= MOST_STEPS
}

/// Whether all places are near.
pub fn are_near(places: &[Vector]) -> bool
    ensures { result ≡ list_all is_near places.now }
{
    places.iter().all(is_near)
}
