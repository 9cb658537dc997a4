ghost use Rattle.std.specs.Prelude.{◌<◌, All, IfOk, OnOk};

use exact_mesh::{MeshFace, sixfold};
use std::alloc::{AllocError, Global};
use std::test::Fail;

/// The corners of a cube of one metre, in micrometres: round its bottom, and then above them.
const CUBE: [[i128; 3]; 8] = [
    [0, 0, 0],
    [1_000_000, 0, 0],
    [1_000_000, 1_000_000, 0],
    [0, 1_000_000, 0],
    [0, 0, 1_000_000],
    [1_000_000, 0, 1_000_000],
    [1_000_000, 1_000_000, 1_000_000],
    [0, 1_000_000, 1_000_000],
];

const FAR: i128 = 1 << 37;

/// A place and four corners as far from it as they may lie. The triple product of the first of the
/// four and two others in turn is 4 * 2^111.
const WIDE: [[i128; 3]; 5] = [
    [7, 7, 7],
    [7 + FAR, 7 + FAR, 7 + FAR],
    [7 + FAR, 7 - FAR, 7 - FAR],
    [7 - FAR, 7 + FAR, 7 - FAR],
    [7 - FAR, 7 - FAR, 7 + FAR],
];

/// A face of four of eight corners. The plane is of no matter here.
fn push_quad(alloc: Global, faces: &mut Vec<MeshFace>, places: [usize; 4]) -> Result<(), AllocError>
    requires old { All (λ f. All (λ i. i < 8) f.corners.items) faces.old.items }
    requires new { All (λ i. i < 8) places }
    ensures { OnOk result (All (λ f. All (λ i. i < 8) f.corners.items) faces.new.items) }
{
    let face = MeshFace {
        plane: [0, 0, 1, 0],
        edges: Vec::new(alloc),
        corners: Vec::from_array(alloc, places)?,
    };
    Ok(faces.push(face)?)
}

/// The faces of the cube.
fn cube(alloc: Global) -> Result<Vec<MeshFace>, AllocError>
    ensures { IfOk result (λ faces. All (λ f. All (λ i. i < 8) f.corners.items) faces.items) }
{
    let mut faces = Vec::new(alloc);
    push_quad(alloc, &mut faces, [0, 3, 2, 1])?;
    push_quad(alloc, &mut faces, [4, 5, 6, 7])?;
    push_quad(alloc, &mut faces, [0, 1, 5, 4])?;
    push_quad(alloc, &mut faces, [1, 2, 6, 5])?;
    push_quad(alloc, &mut faces, [2, 3, 7, 6])?;
    push_quad(alloc, &mut faces, [3, 0, 4, 7])?;
    Ok(faces)
}

/// The upper face of the cube, seen from above and from below.
fn sheet(alloc: Global) -> Result<Vec<MeshFace>, AllocError>
    ensures { IfOk result (λ faces. All (λ f. All (λ i. i < 8) f.corners.items) faces.items) }
{
    let mut faces = Vec::new(alloc);
    push_quad(alloc, &mut faces, [4, 5, 6, 7])?;
    push_quad(alloc, &mut faces, [7, 6, 5, 4])?;
    Ok(faces)
}

fn six_of_cube(alloc: Global) -> Result<Option<i128>, AllocError> {
    Ok(sixfold(&CUBE, &cube(alloc)?))
}

fn six_of_sheet(alloc: Global) -> Result<Option<i128>, AllocError> {
    Ok(sixfold(&CUBE, &sheet(alloc)?))
}

#[test]
fn measures_a_cube_and_a_flat_shell(rt: HostRuntime) -> Result<(), Fail> {
    assert_eq!(rt; six_of_cube(rt.alloc())?, Some(6_000_000_000_000_000_000));
    assert_eq!(rt; six_of_sheet(rt.alloc())?, Some(0));
    Ok(())
}

/// Adds a fan of so many triangles over the wide corners, forwards or backwards.
fn push_fan(
    alloc: Global,
    faces: &mut Vec<MeshFace>,
    forwards: bool,
    triangles: u16,
) -> Result<(), AllocError>
    requires { All (λ f. All (λ i. i < 5) f.corners.items) faces.old.items }
    ensures { OnOk result (All (λ f. All (λ i. i < 5) f.corners.items) faces.new.items) }
{
    let step = if forwards { 1 } else { 2 };
    let mut corners = Vec::new(alloc);
    corners.push(1)?;
    for i in 0..triangles as usize + 1 {
        corners.push(2 + i * step % 3)?;
    }
    faces.push(MeshFace {
        plane: [0, 0, 1, 0],
        edges: Vec::new(alloc),
        corners,
    })?;
    Ok(())
}

/// Six times the volume of a fan, of so many triangles, and of two that go backwards.
fn six_of_fans(
    alloc: Global,
    forwards: bool,
    first: u16,
    second: u16,
    third: u16,
) -> Result<Option<i128>, AllocError> {
    let mut faces = Vec::new(alloc);
    push_fan(alloc, &mut faces, forwards, first)?;
    push_fan(alloc, &mut faces, false, second)?;
    push_fan(alloc, &mut faces, false, third)?;
    Ok(sixfold(&WIDE, &faces))
}

#[test]
fn sums_past_one_word(rt: HostRuntime) -> Result<(), Fail> {
    for (forwards, first, second, third, expected) in [
        (true, 1 << 14, 0, 0, None),
        (true, 1 << 14, 1, 0, Some(i128::MAX - (1 << 113) + 1)),
        (true, 1 << 14, 1, 1 << 14, Some(-(1 << 113))),
        (false, 1 << 14, 0, 0, Some(i128::MIN)),
    ] {
        assert_eq!(rt;
            six_of_fans(rt.alloc(), forwards, first, second, third)?,
            expected
        );
    }
    Ok(())
}
