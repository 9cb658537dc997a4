ghost use Rattle.std.specs.Prelude.{◌≡◌, ◌≤◌, ◌<◌, All, IfOk};
ghost use Rattle.exact_mesh.specs.Meshes.{numbered_plane, face_of};
ghost use Rattle.face_check.specs.Sizes.{IsSizedPlane, IsSizedFace};

use exact_mesh::MeshFace;
use face_check::{first_unsound, is_flat};
use plane_core::Corner;
use std::alloc::{AllocError, Global};
use std::test::Fail;

fn corner(x: i8, y: i8, z: i8) -> Corner {
    Corner {
        x: i128::from(x),
        y: i128::from(y),
        z: i128::from(z),
        w: 1,
    }
}

/// The corners of the triangles.
fn corners() -> [Corner; 4] {
    [
        corner(0, 0, 0),
        corner(4, 0, 0),
        corner(0, 4, 0),
        corner(0, 0, 4),
    ]
}

/// A triangle of the plane z = 0, seen from above.
fn triangle(
    alloc: Global,
    places: [usize; 3],
    edges: [[i128; 4]; 3],
) -> Result<MeshFace, AllocError>
    requires places { All (λ i. i < 4) places }
    requires edges { All (λ e. IsSizedPlane (numbered_plane e)) edges }
    ensures { IfOk result (λ f. IsSizedFace 4 (face_of f)) }
{
    Ok(MeshFace {
        plane: [0, 0, 1, 0],
        edges: Vec::from_array(alloc, edges)?,
        corners: Vec::from_array(alloc, places)?,
    })
}

/// The edges of the triangle of the first three corners.
const ROUND: [[i128; 4]; 3] = [[0, -1, 0, 0], [1, 1, 0, 4], [-1, 0, 0, 0]];

fn sound(alloc: Global) -> Result<MeshFace, AllocError>
    ensures { IfOk result (λ f. IsSizedFace 4 (face_of f)) }
{
    triangle(alloc, [0, 1, 2], ROUND)
}

/// The triangle turned round.
fn turned(alloc: Global) -> Result<MeshFace, AllocError>
    ensures { IfOk result (λ f. IsSizedFace 4 (face_of f)) }
{
    triangle(
        alloc,
        [0, 2, 1],
        [[-1, 0, 0, 0], [1, 1, 0, 4], [0, -1, 0, 0]],
    )
}

/// A triangle with a corner off its plane.
fn steep(alloc: Global) -> Result<MeshFace, AllocError>
    ensures { IfOk result (λ f. IsSizedFace 4 (face_of f)) }
{
    triangle(alloc, [0, 1, 3], ROUND)
}

/// The place of the first of a list of one face that is not sound.
fn first_of_one(face: MeshFace) -> Option<usize>
    requires { IsSizedFace 4 (face_of face) }
{
    first_unsound(&corners(), &[face])
}

/// The place of the first of two faces that is not sound.
fn first_of_two(first: MeshFace, second: MeshFace) -> Option<usize>
    requires first { IsSizedFace 4 (face_of first) }
    requires second { IsSizedFace 4 (face_of second) }
{
    first_unsound(&corners(), &[first, second])
}

fn lies_flat(face: MeshFace) -> bool
    requires { IsSizedFace 4 (face_of face) }
{
    is_flat(&corners(), &face)
}

#[test]
fn finds_faces_that_are_not_sound(rt: HostRuntime) -> Result<(), Fail> {
    let alloc = rt.alloc();
    assert!(rt; first_of_one(sound(alloc)?).is_none());
    assert!(rt; lies_flat(turned(alloc)?));
    assert!(rt; first_of_two(sound(alloc)?, turned(alloc)?) == Some(1));
    assert!(rt; !lies_flat(steep(alloc)?));
    assert!(rt; first_of_one(steep(alloc)?) == Some(0));
    Ok(())
}
