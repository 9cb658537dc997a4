use crate::books::{Numbers, corner, plane};
use plane_core::{Corner, Plane, PlaneBook, PlaneId, Sign, side};
use std::alloc::AllocError;

/// Four numbers of a plane or of a corner.
type Four = (i128, i128, i128, i128);

/// The numbers of a plane.
fn of_plane(plane: Option<Plane>) -> Option<Four> {
    let p = plane?;
    Some((p.a, p.b, p.c, p.d))
}

/// The numbers of a corner.
fn of_corner(corner: Option<Corner>) -> Option<Four> {
    let c = corner?;
    Some((c.x, c.y, c.z, c.w))
}

/// Numbers, and the reduced planes.
const REDUCED: [(Numbers, Option<Four>); 4] = [
    ([2, 4, 6, 8], Some((1, 2, 3, 4))),
    ([0, 0, -3, 6], Some((0, 0, 1, -2))),
    // Through (0, 0, 0), (8191, 0, 1) and (0, 8192, 1): 2^26 - 8192 is within the bound.
    (
        [-8192, -8191, 67_100_672, 0],
        Some((8192, 8191, -67_100_672, 0)),
    ),
    // One step wider, 2^26 + 8192 is not.
    ([-8193, -8192, 67_117_056, 0], None),
];

#[test]
fn reduces_planes_within_the_bounds(rt: HostRuntime) {
    for (numbers, want) in &REDUCED {
        assert!(rt; of_plane(plane(*numbers)) == *want, "at {numbers:?}");
    }
}

const MOST: i64 = 1 << 26;

const FAR: i64 = 1 << 44;

/// Three planes near the bounds.
const NEAR: [Numbers; 3] = [
    [MOST, MOST - 1, 3 - MOST, FAR],
    [MOST - 5, 7 - MOST, MOST - 9, 1 - FAR],
    [MOST - 11, MOST - 13, MOST - 17, FAR - 3],
];

/// The planes x = 1, y = 2 and z = 3.
const X: Numbers = [1, 0, 0, 1];

const Y: Numbers = [0, 1, 0, 2];

const Z: Numbers = [0, 0, 1, 3];

/// Three planes, and the corner in which they meet.
const CORNERS: [([Numbers; 3], Option<Four>); 5] = [
    ([X, Y, Z], Some((1, 2, 3, 1))),
    // In this order the determinant is negative, and the weight is positive all the same.
    ([Y, X, Z], Some((1, 2, 3, 1))),
    ([[1, 0, 0, 0], X, [0, 1, 0, 0]], None),
    // Between grid steps.
    (
        [[2, 0, 0, 1], [0, 1, 0, 0], [0, 0, 1, 0]],
        Some((1, 0, 0, 2)),
    ),
    (
        NEAR,
        Some((
            -1_416_708_706_371_224_207_358,
            31_691_259_102_744_088_384_642_010_309,
            2_833_416_965_900_721_559_959,
            120_892_541_429_069_452_096_266,
        )),
    ),
];

#[test]
fn meets_three_planes_in_a_corner(rt: HostRuntime) {
    for (planes, want) in &CORNERS {
        assert!(rt; of_corner(corner(*planes)) == *want, "at {planes:?}");
    }
}

/// The side of the corner of three planes at a fourth.
fn side_of(numbers: Numbers, planes: [Numbers; 3]) -> Option<Sign> {
    Some(side(&plane(numbers)?, &corner(planes)?))
}

/// A plane, three others, and the side on which the corner of those lies.
const SIDES: [(Numbers, [Numbers; 3], Sign); 6] = [
    (X, [[1, 0, 0, 2], Y, Z], Sign::Front),
    (X, [X, Y, Z], Sign::On),
    (X, [[1, 0, 0, 0], Y, Z], Sign::Back),
    // The values are some 4.25 * 10^36 in size, between 2^121 and 2^122.
    ([MOST - 1, -MOST, MOST - 1, FAR - 1], NEAR, Sign::Back),
    ([MOST - 1, MOST, MOST - 1, 1 - FAR], NEAR, Sign::Front),
    ([MOST - 11, MOST - 13, MOST - 17, FAR - 3], NEAR, Sign::On),
];

#[test]
fn tells_the_side_of_a_corner(rt: HostRuntime) {
    for (numbers, planes, sign) in &SIDES {
        assert!(rt; side_of(*numbers, *planes) == Some(*sign), "at {numbers:?}");
    }
}

/// The number of a plane in a book to which it is added, if it is one.
fn add(book: &mut PlaneBook, numbers: Numbers) -> Result<Option<u32>, AllocError> {
    match plane(numbers) {
        Some(plane) if book.count() < 100 => Ok(Some(book.add(plane)?.k)),
        _ => Ok(None),
    }
}

/// Planes x = d, their numbers, and how many planes the book then has.
const ADDED: [(i64, u32, usize); 3] = [(1_048_577, 1, 6), (0, 6, 7), (0, 6, 7)];

#[test]
fn gives_equal_planes_one_number(rt: HostRuntime) -> Result<(), AllocError> {
    let mut book = PlaneBook::new(rt.alloc())?;
    assert!(rt; book.count() == 6);
    assert!(rt; book.plane(PlaneId { k: 0 }).d == -1_048_577);
    for (d, number, count) in &ADDED {
        assert!(rt; add(&mut book, [1, 0, 0, *d])? == Some(*number));
        assert!(rt; book.count() == *count);
    }
    Ok(())
}
