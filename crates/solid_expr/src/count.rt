ghost use Rattle.std.specs.Prelude.{◌≡◌, ◌<◌, ◌^◌, length, map, sum_by};
ghost use Rattle.spec_shape.specs.Shapes.{is_bounded, is_bounded_by, united, count_triangles, face_count};
ghost use Rattle.solid_expr.specs.Views.{shape_of};

use crate::face::Face;
use crate::solid::Solid;
use ix_profile::Loop;
use spec_solid::BoolOp;

/// Whether the operator's solid is bounded, by whether the two that it combines are.
fn is_bounded_by(operator: BoolOp, first: bool, second: bool) -> bool
    ensures { result ≡ is_bounded_by operator first second }
{
    match operator {
        BoolOp::Union => first && second,
        BoolOp::Intersection => first || second,
        BoolOp::Difference => first,
    }
}

/// Whether the solid is bounded (a rule of this project): a primitive is, a half-space is not; a union is where all its
/// parts are, an intersection where one of the two is, a difference where its first part is.
#[cycle(bounded)]
pub fn is_bounded(solid: &Solid) -> bool
    ensures { result ≡ is_bounded (shape_of solid.now) }
{
    match solid {
        Solid::Faces { .. } => true,
        Solid::Half { .. } => false,
        Solid::Combined {
            operator,
            first,
            second,
            ..
        } => {
            let is_first = is_bounded(first.get());
            let is_second = is_bounded(second.get());
            is_bounded_by(*operator, is_first, is_second)
        }
        Solid::Union { parts, .. } => are_bounded(parts.as_slice()),
    }
}

/// Whether all of the solids are bounded.
#[cycle(bounded)]
fn are_bounded(solids: &[Solid]) -> bool
    ensures { result ≡ is_bounded (united (map shape_of solids.now)) }
{
    for solid in solids {
        if !is_bounded(solid) {
            return false;
        }
    }
    true
}

fn count_loop(counted: &Loop) -> u128
    ensures { result ≡ length counted.now }
{
    counted.len() as u128
}

/// How many corners the loops have together.
fn count_corners(loops: &[Loop]) -> u128
    requires { sum_by length loops.now < 2 ^ 128 }
    ensures { result ≡ sum_by length loops.now }
{
    let mut count = 0;
    for l in loops {
        count += count_loop(l);
    }
    count
}

fn count_face(face: &Face) -> u128
    requires { face_count face.now < 2 ^ 128 }
    ensures { result ≡ face_count face.now }
{
    count_corners(face.loops().as_slice())
}

fn count_faces(faces: &[Face]) -> u128
    requires { sum_by face_count faces.now < 2 ^ 128 }
    ensures { result ≡ sum_by face_count faces.now }
{
    let mut count = 0;
    for face in faces {
        count += count_face(face);
    }
    count
}

/// How many triangles the solid has, one for each edge of a loop, and half-spaces.
#[cycle(count)]
pub fn count_triangles(solid: &Solid) -> u128
    requires { count_triangles (shape_of solid.now) < 2 ^ 128 }
    ensures { result ≡ count_triangles (shape_of solid.now) }
{
    match solid {
        Solid::Faces { faces, .. } => count_faces(faces),
        Solid::Half { .. } => 1,
        Solid::Combined { first, second, .. } => {
            count_triangles(first.get()) + count_triangles(second.get())
        }
        Solid::Union { parts, .. } => count_parts(parts.as_slice()),
    }
}

/// How many triangles and half-spaces the solids have together.
#[cycle(count)]
#[tactic(auto, using(crate::proofs::Counts::part_small))]
fn count_parts(solids: &[Solid]) -> u128
    requires { count_triangles (united (map shape_of solids.now)) < 2 ^ 128 }
    ensures { result ≡ count_triangles (united (map shape_of solids.now)) }
{
    let mut count = 0;
    for solid in solids {
        count += count_triangles(solid);
    }
    count
}
