ghost use Rattle.std.specs.Prelude.{◌≡◌};
ghost use Rattle.std.specs.Ordering.{is_lt, ordering_then};
ghost use Rattle.spec_num.specs.Fractions.{fraction_cmp};
ghost use Rattle.plane_core.specs.Views.{point_of};
ghost use Rattle.corner_book.specs.Order.{point_cmp};

use ix_num::compare_fractions;
use plane_core::Corner;
use std::cmp::Ordering;

/// Whether the corner `c` comes before `d`: by x, then by y, then by z, each compared exactly (a rule of this project). Along
/// a line this is one of its two directions.
pub fn before_on_line(c: &Corner, d: &Corner) -> bool
    ensures { result ≡ is_lt (point_cmp (point_of c.now) (point_of d.now)) }
{
    match compare_fractions(c.x, c.w, d.x, d.w) {
        Ordering::Less => true,
        Ordering::Greater => false,
        Ordering::Equal => before_by_y(c, d),
    }
}

/// Whether the corner `c` comes before `d`: by y, then by z.
fn before_by_y(c: &Corner, d: &Corner) -> bool
    ensures { result ≡ is_lt (ordering_then (fraction_cmp c.now.y c.now.w d.now.y d.now.w) (fraction_cmp c.now.z c.now.w d.now.z d.now.w)) }
{
    match compare_fractions(c.y, c.w, d.y, d.w) {
        Ordering::Less => true,
        Ordering::Greater => false,
        Ordering::Equal => match compare_fractions(c.z, c.w, d.z, d.w) {
            Ordering::Less => true,
            Ordering::Equal => false,
            Ordering::Greater => false,
        },
    }
}
