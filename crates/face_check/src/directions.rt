ghost use Rattle.std.specs.Prelude.{◌≡◌, ◌<◌, pos, ◌<ℤ◌, ◌-ℤ◌, ◌*ℤ◌, int_lt, length};
ghost use Rattle.std.specs.Ordering.{int_eq};
ghost use Rattle.spec_space.specs.Points.{way_between};
ghost use Rattle.plane_core.specs.Views.{point_of};
ghost use Rattle.face_check.specs.Sound.{point_at, goes_along};

use ix_num::compare_fractions;
use plane_core::Corner;
use spec_space::Vector;
use std::cmp::Ordering;

/// Whether the way from one fraction to another goes to the side of the number.
fn goes_to(side: i128, from: i128, from_weight: i128, to: i128, to_weight: i128) -> bool
    requires first { pos 0 <ℤ from_weight }
    requires second { pos 0 <ℤ to_weight }
    ensures { result ≡ int_lt (pos 0) (side *ℤ (to *ℤ from_weight -ℤ from *ℤ to_weight)) }
{
    match compare_fractions(to, to_weight, from, from_weight) {
        Ordering::Less => side < 0,
        Ordering::Equal => false,
        Ordering::Greater => side > 0,
    }
}

fn is_zero(number: i128) -> bool
    ensures { result ≡ int_eq number (pos 0) }
{
    number == 0
}

/// Whether the way from one corner to another goes along the direction, by the first coordinate of the direction that is
/// not 0.
fn goes_along(direction: &Vector, from: &Corner, to: &Corner) -> bool
    ensures { result ≡ goes_along direction.now (way_between (point_of from.now) (point_of to.now)) }
{
    if !is_zero(direction.x) {
        return goes_to(direction.x, from.x, from.w, to.x, to.w);
    }
    if !is_zero(direction.y) {
        return goes_to(direction.y, from.y, from.w, to.y, to.w);
    }
    goes_to(direction.z, from.z, from.w, to.z, to.w)
}

/// Whether the way between the corners at two places goes along the direction.
pub(crate) fn runs_along(corners: &[Corner], direction: &Vector, from: usize, to: usize) -> bool
    requires from { from < length corners.now }
    requires to { to < length corners.now }
    ensures { result ≡ goes_along direction.now (way_between (point_at corners.now from) (point_at corners.now to)) }
{
    goes_along(direction, &corners[from], &corners[to])
}
