ghost use Rattle.std.specs.Prelude.{◌≡◌, ◌+◌, ◌*◌, ◌≤◌, ◌^◌, pos, ◌<ℤ◌, ◌+ℤ◌, ◌*ℤ◌, unsigned_abs};
ghost use Rattle.spec_num.specs.Rounding.{round_of};
ghost use Rattle.spec_space.specs.Points.{dot};
ghost use Rattle.spec_place.specs.Vectors.{IsWithin};
ghost use Rattle.spec_page.specs.World.{image_above, image_below};
ghost use Rattle.plane_core.specs.Views.{point_of};
ghost use Rattle.world_print.specs.Ranges.{IsStep};
ghost use Rattle.world_print.specs.Steps.{IsSplit};

use plane_core::Corner;
use spec_space::Vector;

/// A row of a frame's matrix, in units of 10^-9, times a vector.
fn dot(row: &Vector, v: &Vector) -> i128
    requires row { IsWithin (10 ^ 9) row.now }
    requires vector { IsWithin (6 * 2 ^ 78) v.now }
    ensures { result ≡ dot row.now v.now }
{
    row.x * v.x + row.y * v.y + row.z * v.z
}

/// The coordinate of whole grid steps in the world, exact, in units of 10^-9 micrometres.
fn whole_image(row: &Vector, off: i128, step: u32, whole: &Vector) -> i128
    requires row { IsWithin (10 ^ 9) row.now }
    requires off { unsigned_abs off ≤ 10 ^ 16 }
    requires step { IsStep step }
    requires whole { IsWithin (2 ^ 20) whole.now }
    ensures value { result ≡ dot row.now whole.now *ℤ pos step +ℤ off *ℤ pos (10 ^ 6) }
    ensures size { unsigned_abs result ≤ 2 ^ 74 }
{
    dot(row, whole) * i128::from(step) + off * 1_000_000
}

/// What the rest of a grid step adds to it, times the corner's weight.
fn rest_image(row: &Vector, step: u32, rest: &Vector) -> i128
    requires row { IsWithin (10 ^ 9) row.now }
    requires step { IsStep step }
    requires rest { IsWithin (6 * 2 ^ 78) rest.now }
    ensures value { result ≡ dot row.now rest.now *ℤ pos step }
    ensures size { unsigned_abs result ≤ 3 * 10 ^ 13 * (6 * 2 ^ 78) }
{
    dot(row, rest) * i128::from(step)
}

/// A coordinate of two parts in whole micrometres, a half rounded up: the first is in units of 10^-9 micrometres, and the
/// second is such a part times the weight.
fn rounded(whole: i128, rest: i128, weight: i128) -> i128
    requires whole { unsigned_abs whole ≤ 2 ^ 74 }
    requires rest { unsigned_abs rest ≤ 3 * 10 ^ 13 * (6 * 2 ^ 78) }
    requires positive { pos 0 <ℤ weight }
    requires weight { unsigned_abs weight ≤ 6 * 2 ^ 78 }
    ensures { result ≡ round_of (whole *ℤ weight +ℤ rest) (pos (10 ^ 9) *ℤ weight) }
{
    let parts = 2 * whole + 1_000_000_000 + (2 * rest).div_euclid(weight);
    parts.div_euclid(2_000_000_000)
}

/// A coordinate of a corner in the world in whole micrometres, a half rounded up, by a row of the frame's matrix and its
/// offset. The whole grid steps of the corner and the rest are taken separately, so that no sum passes 128 bits.
pub(crate) fn coordinate(
    row: &Vector,
    off: i128,
    step: u32,
    corner: &Corner,
    whole: &Vector,
    rest: &Vector,
) -> i128
    requires row { IsWithin (10 ^ 9) row.now }
    requires off { unsigned_abs off ≤ 10 ^ 16 }
    requires step { IsStep step }
    requires split { IsSplit (point_of corner.now) whole.now rest.now }
    ensures { result ≡ round_of (image_above row.now off step (point_of corner.now)) (image_below (point_of corner.now)) }
{
    rounded(
        whole_image(row, off, step, whole),
        rest_image(row, step, rest),
        corner.w,
    )
}
