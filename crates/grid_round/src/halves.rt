ghost use Rattle.std.specs.Prelude.{◌≡◌, ◌≤◌, not, if◌then◌else◌};
ghost use Rattle.spec_place.specs.HalfSpaces.{half_space};
ghost use Rattle.plane_core.specs.Numbers.{leads_positive};
ghost use Rattle.spec_grid.specs.Rounded.{half, placed_half};
ghost use Rattle.ix_place.specs.Bounds.{IsPlaneOnGrid};
ghost use Rattle.grid_round.specs.Views.{RoundsHalf};

use crate::corners::is_near;
use grid_solid::GridNode;
use ix_place::Map;
use plane_core::Plane;
use spec_place::HalfSpace;
use spec_refusal::Refusal;

/// Whether the first of three numbers that is not 0 is positive.
fn leads_positive(a: i128, b: i128, c: i128) -> bool
    ensures { result ≡ leads_positive a b c }
{
    if a != 0 {
        a > 0
    } else if b != 0 {
        b > 0
    } else {
        c > 0
    }
}

/// Whether the material lies in front of the reduced plane, which may have the opposite normal.
fn is_in_front(half: &HalfSpace) -> bool
    ensures { result ≡ (if leads_positive half.now.plane.a half.now.plane.b half.now.plane.c then half.now.in_front else not half.now.in_front) }
{
    if leads_positive(half.plane.a, half.plane.b, half.plane.c) {
        half.in_front
    } else {
        !half.in_front
    }
}

/// A half-space that has its place.
fn placed_half(at: u64, half: &HalfSpace) -> Result<GridNode, Refusal>
    requires { IsPlaneOnGrid half.now.plane }
    ensures { RoundsHalf result (placed_half at half.now) }
{
    if !is_near(&half.corner) {
        return Err(Refusal::CornerTooFar { at });
    }
    match Plane::reduced(half.plane.a, half.plane.b, half.plane.c, half.plane.d) {
        Some(plane) => Ok(GridNode::HalfSpace {
            plane,
            in_front: is_in_front(half),
        }),
        None => Err(Refusal::PlaneTooLarge { at }),
    }
}

/// A half-space on the grid. Where the reduced plane has the opposite normal, the side changes with it.
pub fn round_half(at: u64, under: &Map, step: u32, agreement: bool) -> Result<GridNode, Refusal>
    requires low { 1 ≤ step }
    requires high { step ≤ 10000 }
    ensures { RoundsHalf result (half at (half_space under.now step agreement)) }
{
    match under.half_space(step, agreement) {
        Ok(half) => placed_half(at, &half),
        Err(_) => Err(Refusal::BadDirection { at }),
    }
}
