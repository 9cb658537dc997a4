ghost use Rattle.std.specs.Prelude.{◌≡◌, ◌*◌, ◌≤◌, ◌^◌, pos, ◌<ℤ◌, ◌+ℤ◌, ◌*ℤ◌, unsigned_abs};
ghost use Rattle.spec_place.specs.Transforms.{IsFrame};
ghost use Rattle.spec_page.specs.World.{rounded_image};
ghost use Rattle.plane_core.specs.Views.{point_of};
ghost use Rattle.exact_mesh.specs.Meshes.{vector_of};
ghost use Rattle.world_print.specs.Ranges.{IsStep, IsOnGrid};
ghost use Rattle.world_print.specs.Steps.{IsSplit};

use crate::coordinate::coordinate;
use ix_place::Frame;
use plane_core::Corner;
use spec_place::Transform;
use spec_space::Vector;

/// A corner as whole grid steps, rounded down, and the rest in parts of the corner's weight.
struct Steps {
    whole: Vector,
    rest: Vector,
}

/// The whole grid steps of a coordinate, rounded down, and the rest in parts of the weight.
fn split(x: i128, weight: i128) -> (i128, i128)
    requires positive { pos 0 <ℤ weight }
    requires small { unsigned_abs weight ≤ 6 * 2 ^ 78 }
    requires reach { unsigned_abs x ≤ 2 ^ 20 * unsigned_abs weight }
    ensures sum { x ≡ result.0 *ℤ weight +ℤ result.1 }
    ensures whole { unsigned_abs result.0 ≤ 2 ^ 20 }
    ensures rest { unsigned_abs result.1 ≤ 6 * 2 ^ 78 }
{
    (x.div_euclid(weight), x.rem_euclid(weight))
}

fn steps_of(corner: &Corner) -> Steps
    requires { IsOnGrid corner.now }
    ensures { IsSplit (point_of corner.now) result.whole result.rest }
{
    let (x, x_rest) = split(corner.x, corner.w);
    let (y, y_rest) = split(corner.y, corner.w);
    let (z, z_rest) = split(corner.z, corner.w);
    Steps {
        whole: Vector { x, y, z },
        rest: Vector {
            x: x_rest,
            y: y_rest,
            z: z_rest,
        },
    }
}

/// The printed corner in a frame: the exact image in the world, rounded to whole micrometres.
pub(crate) fn place_in(frame: &Transform, step: u32, corner: &Corner) -> [i128; 3]
    requires frame { IsFrame frame.now }
    requires step { IsStep step }
    requires reach { IsOnGrid corner.now }
    ensures { vector_of result ≡ rounded_image frame.now step (point_of corner.now) }
{
    let Steps { whole, rest } = steps_of(corner);
    let off = &frame.off;
    [
        coordinate(&frame.x, off.x, step, corner, &whole, &rest),
        coordinate(&frame.y, off.y, step, corner, &whole, &rest),
        coordinate(&frame.z, off.z, step, corner, &whole, &rest),
    ]
}

/// The printed corner: the exact image of a corner in grid steps in the world, rounded to whole micrometres, a half upwards (a
/// rule of this project). The step has from 1 to 10,000 micrometres, and no coordinate of the corner has a size above 2^20
/// steps. No memory is taken.
pub fn world_corner(f: &Frame, step: u32, c: &Corner) -> [i128; 3]
    requires step { IsStep step }
    requires reach { IsOnGrid c.now }
    ensures { vector_of result ≡ rounded_image f.now step (point_of c.now) }
{
    place_in(&f.transform, step, c)
}
