use crate::prisms::{Place, push_prism, square};
use crate::trial::Trial;
use std::alloc::Global;
use std::test::Fail;

/// The tree of a prism that stands on z = 0.
fn prism(alloc: Global, top: &[Place]) -> Result<Trial, Fail> {
    let mut faces = Vec::new(alloc);
    push_prism(alloc, &mut faces, 0, top)?;
    Trial::of_faces(alloc, faces)
}

/// Whether a prism has these values at z = 1/2, 7996/8, 8001/8 and 8004/8, over x = 1001/2 and y = 1003/4.
fn has_top(alloc: Global, top: &[Place], values: [bool; 4]) -> Result<bool, Fail> {
    let trial = prism(alloc, top)?;
    Ok(
        trial.is_inside(4004, 2006, 4) == Some(values[0])
            && trial.is_inside(4004, 2006, 7996) == Some(values[1])
            && trial.is_inside(4004, 2006, 8001) == Some(values[2])
            && trial.is_inside(4004, 2006, 8004) == Some(values[3]),
    )
}

/// The corners of the top of a cube, and two of them moved up.
const A: Place = (0, 0, 1000);

const B: Place = (1000, 0, 1000);

const C: Place = (1000, 1000, 1000);

const D: Place = (0, 1000, 1000);

const MOVED_B: Place = (1000, 0, 1002);

const MOVED_C: Place = (1000, 1000, 1002);

/// Tops, and their values.
const TOPS: [([Place; 4], [bool; 4]); 4] = [
    ([A, MOVED_B, C, D], [true, true, true, false]),
    ([MOVED_B, C, D, A], [true, true, true, true]),
    ([A, B, MOVED_C, D], [true, true, true, true]),
    ([B, MOVED_C, D, A], [true, true, false, false]),
];

/// A cube of which one top corner is moved up from 1000 to 1002. Its top is cut from its first corner. Where the corner at
/// x = 1000 and y = 0 is moved, the top lies over x = 1001/2 and y = 1003/4 at 1000.4995 if it is cut along x = y, and at
/// 1001.001 if along x + y = 1000. Where the corner at x = y = 1000 is moved, it lies at 1000.5015 or 1000, so that the
/// other diagonal differs at z = 8001/8.
#[test]
fn cuts_a_warped_top_from_its_first_corner(rt: HostRuntime) -> Result<(), Fail> {
    for (top, values) in &TOPS {
        assert!(rt; has_top(rt.alloc(), top, *values)?, "at {values:?}");
    }
    Ok(())
}

/// The tree of two prisms, as faces of one shell.
fn prisms(alloc: Global, first: &[Place], low: u32, second: &[Place]) -> Result<Trial, Fail> {
    let mut faces = Vec::new(alloc);
    push_prism(alloc, &mut faces, 0, first)?;
    push_prism(alloc, &mut faces, low, second)?;
    Trial::of_faces(alloc, faces)
}

/// Heights, and whether what is there lies in the outer cube and not in the inner one.
const HEIGHTS: [(u32, bool); 6] = [
    (4, true),
    (2396, true),
    (2404, false),
    (4796, false),
    (4804, true),
    (8004, false),
];

/// A cube in a cube, as faces of one shell: what is in both is a void.
#[test]
fn leaves_a_void_inside(rt: HostRuntime) -> Result<(), Fail> {
    let (outer, inner) = (square(0, 0, 1000, 1000), square(300, 300, 600, 300));
    let trial = prisms(rt.alloc(), &outer, 300, &inner)?;
    for (z, value) in &HEIGHTS {
        assert!(rt; trial.is_inside(4004, 2996, *z) == Some(*value), "at {z}");
    }
    Ok(())
}

/// An L-shaped profile.
const BEND: [Place; 6] = [
    (2000, 0, 1000),
    (2000, 1000, 1000),
    (1000, 1000, 1000),
    (1000, 2000, 1000),
    (0, 2000, 1000),
    (0, 0, 1000),
];

/// Points, and whether they lie in the bend and in the cubes.
const PLACES: [(u32, u32, bool, bool); 4] = [
    (4004, 2006, true, true),
    (12004, 2006, true, false),
    (2006, 12004, true, false),
    (8804, 10006, false, true),
];

/// An L-shaped profile that is swept, cut from a corner that does not see all of it. The last point lies in two of the
/// triangles that the profile is cut into, but not in the profile.
#[test]
fn follows_a_bend(rt: HostRuntime) -> Result<(), Fail> {
    let bend = prism(rt.alloc(), &BEND)?;
    for (x, y, in_bend, _in_cubes) in &PLACES {
        assert!(rt;
            bend.is_inside(*x, *y, 4001) == Some(*in_bend),
            "at {x}, {y}"
        );
    }
    Ok(())
}

/// Two cubes of one shell that have an edge in common.
#[test]
fn follows_a_common_edge(rt: HostRuntime) -> Result<(), Fail> {
    let (first, second) = (square(0, 0, 1000, 1000), square(1000, 1000, 1000, 1000));
    let cubes = prisms(rt.alloc(), &first, 0, &second)?;
    for (x, y, _in_bend, in_cubes) in &PLACES {
        assert!(rt;
            cubes.is_inside(*x, *y, 4001) == Some(*in_cubes),
            "at {x}, {y}"
        );
    }
    Ok(())
}
