ghost use Rattle.std.specs.Prelude.{◌≡◌, ◌<◌, ◌≤◌, ◌^◌, ◌&&◌, ◌||◌, neg_ℤ, length, All, unsigned_abs};
ghost use Rattle.std.specs.Ordering.{int_eq};
ghost use Rattle.spec_place.specs.Vectors.{IsWithin, reversed};
ghost use Rattle.exact_mesh.specs.Meshes.{number_at, vector_of};
ghost use Rattle.world_print.specs.Ranges.{IsStep, IsOnGrid, IsPrintable};
ghost use Rattle.world_print.specs.Elements.{page_corners};
ghost use Rattle.face_check.specs.Sound.{first_not};
ghost use Rattle.mesh_check.specs.Near.{negated, page_corner, is_near};

use ix_place::Frame;
use plane_core::Corner;
use spec_place::Transform;
use spec_space::Vector;
use world_print::world_corner;

/// The vector with each of its numbers negated.
fn reversed(v: &Vector) -> Vector
    requires { IsWithin (10 ^ 16) v.now }
    ensures { result ≡ reversed v.now }
{
    Vector {
        x: -v.x,
        y: -v.y,
        z: -v.z,
    }
}

/// The frame with each of its numbers negated: an image in it, rounded, is the negated image in the first, with a half
/// rounded downwards.
fn negated(frame: &Frame) -> Frame
    ensures { result ≡ negated frame.now }
{
    let Transform { x, y, z, off } = &frame.transform;
    Frame {
        transform: Transform {
            x: reversed(x),
            y: reversed(y),
            z: reversed(z),
            off: reversed(off),
        },
    }
}

fn are_same(first: &[i128; 3], second: &[i128; 3]) -> bool
    ensures { result ≡ (int_eq (number_at first.now 0) (number_at second.now 0)
        && (int_eq (number_at first.now 1) (number_at second.now 1) && int_eq (number_at first.now 2) (number_at second.now 2))) }
{
    first[0] == second[0] && first[1] == second[1] && first[2] == second[2]
}

/// Whether the number along an axis is that of an image with a half rounded upwards, or the negated one of the negated image.
fn is_either(numbers: &[i128; 3], up: &[i128; 3], down: &[i128; 3], axis: usize) -> bool
    requires axis { axis < 3 }
    requires number { unsigned_abs (number_at numbers.now axis) ≤ 10 ^ 14 }
    ensures { result ≡ (int_eq (number_at numbers.now axis) (number_at up.now axis) || int_eq (number_at down.now axis) (neg_ℤ (number_at numbers.now axis))) }
{
    numbers[axis] == up[axis] || down[axis] == -numbers[axis]
}

fn are_either(numbers: &[i128; 3], up: &[i128; 3], down: &[i128; 3]) -> bool
    requires { IsPrintable numbers.now }
    ensures { result ≡ ((int_eq (number_at numbers.now 0) (number_at up.now 0) || int_eq (number_at down.now 0) (neg_ℤ (number_at numbers.now 0)))
        && ((int_eq (number_at numbers.now 1) (number_at up.now 1) || int_eq (number_at down.now 1) (neg_ℤ (number_at numbers.now 1)))
        && (int_eq (number_at numbers.now 2) (number_at up.now 2) || int_eq (number_at down.now 2) (neg_ℤ (number_at numbers.now 2))))) }
{
    if !is_either(numbers, up, down, 0) {
        return false;
    }
    is_either(numbers, up, down, 1) && is_either(numbers, up, down, 2)
}

/// Whether the printed corner is within half a micrometre of the exact image, in each coordinate.
fn is_near(frame: &Frame, back: &Frame, step: u32, corner: &Corner, printed: &[i128; 3]) -> bool
    requires back { back.now ≡ negated frame.now }
    requires step { IsStep step }
    requires reach { IsOnGrid corner.now }
    requires printed { IsPrintable printed.now }
    ensures { result ≡ is_near frame.now step (page_corner corner.now printed.now) }
{
    let up = world_corner(frame, step, corner);
    if are_same(printed, &up) {
        return true;
    }
    are_either(printed, &up, &world_corner(back, step, corner))
}

/// The place of the first corner whose printed place is more than half a micrometre from its exact image in some coordinate.
pub(crate) fn first_far(
    frame: &Frame,
    step: u32,
    corners: &[Corner],
    printed: &[[i128; 3]],
) -> Option<usize>
    requires step { IsStep step }
    requires reach { All IsOnGrid corners.now }
    requires printed { All IsPrintable printed.now }
    requires paired { length printed.now ≡ length corners.now }
    ensures { result ≡ first_not (is_near frame.now step) 0 (page_corners corners.now printed.now) }
{
    let back = negated(frame);
    for i in 0..corners.len() {
        if !is_near(frame, &back, step, &corners[i], &printed[i]) {
            return Some(i);
        }
    }
    None
}
