use crate::meshes::{corner_at, tetrahedron};
use ifc_kinds::Kind;
use ix_place::{Dir, Frame};
use plane_core::Corner;
use std::alloc::{AllocError, Global};
use std::test::Fail;
use world_print::{finish, metres, world_corner};

/// The frame of a wall at 2,600,000 and 1,200,000 metres, turned by a sixth of a half turn.
fn far_frame() -> Option<Frame> {
    let along = Dir::of_triple([866_025_400_000, 500_000_000_000, 0]).ok()?;
    let at = [2_600_000_000_000_000, 1_200_000_000_000_000, 0];
    Frame::of_axes(at, None, Some(along)).ok()
}

/// The printed corner at whole grid steps of a millimetre in the far frame.
fn far_corner(x: i16, y: i16) -> Option<[i128; 3]> {
    Some(world_corner(&far_frame()?, 1000, &corner_at(x, y, 0)))
}

#[test]
fn prints_a_wall_far_away(rt: HostRuntime) {
    for (x, y, expected) in [
        (5000, 0, [2_600_004_330_127, 1_200_002_500_000, 0]),
        (5000, 200, [2_600_004_230_127, 1_200_002_673_205, 0]),
        (0, 200, [2_599_999_900_000, 1_200_000_173_205, 0]),
    ] {
        assert!(rt; far_corner(x, y) == Some(expected));
    }
}

/// The printed corner at -1000000.5, 0.5 and -1.5 micrometres, by halves of a grid step.
fn halves() -> [i128; 3] {
    let halves = Corner {
        x: -2_000_001,
        y: 1,
        z: -3,
        w: 2,
    };
    world_corner(&Frame::identity(), 1, &halves)
}

/// The same by an offset.
fn shifted() -> Option<[i128; 3]> {
    let shifted = Frame::of_axes([-1_000_000_500, 500, -1_500], None, None).ok()?;
    Some(world_corner(&shifted, 10_000, &corner_at(0, 0, 0)))
}

#[test]
fn rounds_halves_upwards(rt: HostRuntime) {
    assert!(rt; halves() == [-1_000_000, 1, -1]);
    assert!(rt; shifted() == Some([-1_000_000, 1, -1]));
}

/// Whether the finished tetrahedron has the number, the kind, the step, the frame, the corners, the faces, the printed corners
/// and the volume that are told here.
fn is_finished(alloc: Global, frame: Frame) -> Result<bool, AllocError> {
    let m = finish(
        alloc,
        13,
        Kind::Wall,
        frame,
        1000,
        tetrahedron(alloc, 3000)?,
    )?;
    let places = [
        [2_600_000_000_000, 1_200_000_000_000, 0],
        [2_600_004_330_127, 1_200_002_500_000, 0],
        [2_599_999_900_000, 1_200_000_173_205, 0],
        [2_600_000_000_000, 1_200_000_000_000, 3_000_000],
    ];
    // Not the three thousand millions of cubic millimetres of the exact corners.
    let six = Some(2_999_998_941_105_000_000);
    Ok(
        m.number == 13
            && m.kind == Kind::Wall
            && m.step == 1000
            && m.frame.transform.off.x == 2_600_000_000_000_000
            && m.mesh.corners.len() == 4
            && m.mesh.faces.len() == 4
            && m.printed.as_slice() == places.as_slice()
            && m.six == six,
    )
}

#[test]
fn finishes_a_mesh(rt: HostRuntime) -> Result<(), Fail> {
    let frame = far_frame().expect(&rt, "a frame");
    assert!(rt; is_finished(rt.alloc(), frame)?);
    Ok(())
}

/// Whether a number of micrometres is appended as a text.
fn is_appended(alloc: Global, micro: i128, text: &str) -> Result<bool, AllocError> {
    let mut page = Vec::from_slice(alloc, b"v ")?;
    metres(&mut page, micro)?;
    Ok(page.as_slice() == text.as_bytes())
}

#[test]
fn prints_metres(rt: HostRuntime) -> Result<(), Fail> {
    for (micro, text) in [
        (2_600_004_330_127, "v 2600004.330127"),
        (1_200_002_500_000, "v 1200002.500000"),
        (0, "v 0.000000"),
        (-1_000_000, "v -1.000000"),
        (-1, "v -0.000001"),
    ] {
        assert!(rt; is_appended(rt.alloc(), micro, text)?);
    }
    Ok(())
}
