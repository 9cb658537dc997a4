ghost use Rattle.std.specs.Prelude.{IfOk, IfSome};
ghost use Rattle.poly_frag.specs.Cycles.{IsFragment};

use crate::books::{Numbers, book_of};
use crate::trees::Side;
use plane_core::{PlaneBook, PlaneId};
use poly_frag::{Frag, Split, corners, on_cube, split};
use std::alloc::{AllocError, Global};

/// The four numbers of a corner.
type Place = (i128, i128, i128, i128);

/// The size of a coordinate on a wall of the cube.
const M: i128 = 1_048_577;

/// The planes z = 0, x = 0, x = 4, y = 0 and y = 4, numbers 6 to 10, and those of the tests.
const PLANES: [Numbers; 15] = [
    [0, 0, 1, 0],
    [1, 0, 0, 0],
    [1, 0, 0, 4],
    [0, 1, 0, 0],
    [0, 1, 0, 4],
    [1, 0, 0, 1],
    [2, 3, 0, 9],
    [1, -2, 0, -4],
    [1, -1, 0, 0],
    [1, 1, 0, 8],
    [1, 0, 0, 9],
    [1, 0, 0, -3],
    [1, 1, 1, 0],
    [1, 1, 1, 3_145_731],
    [1, 1, 0, 2_097_154],
];

/// The corners of a fragment, and none where there is no fragment.
fn places(alloc: Global, book: &PlaneBook, part: &Option<Frag>) -> Result<Vec<Place>, AllocError>
    requires fragment { IfSome part.now (IsFragment book.now) }
{
    let mut places = Vec::new(alloc);
    if let Some(part) = part {
        for c in &corners(alloc, book, part)? {
            places.push((c.x, c.y, c.z, c.w))?;
        }
    }
    Ok(places)
}

/// What lies of a plane in the cube, if anything does.
fn whole(alloc: Global, book: &PlaneBook, k: u32) -> Result<Option<Frag>, AllocError>
    ensures { IfOk result (λ o. IfSome o (IsFragment book.now)) }
{
    if k as usize >= book.count() {
        return Ok(None);
    }
    on_cube(alloc, book, PlaneId { k })
}

/// The part of a fragment in front of a plane, and the part behind it, as far as there are such parts.
fn parts(
    alloc: Global,
    book: &PlaneBook,
    part: &Option<Frag>,
    by: u32,
) -> Result<(Option<Frag>, Option<Frag>), AllocError>
    requires fragment { IfSome part.now (IsFragment book.now) }
    ensures front { IfOk result (λ parts. IfSome parts.0 (IsFragment book.now)) }
    ensures back { IfOk result (λ parts. IfSome parts.1 (IsFragment book.now)) }
{
    match part {
        Some(f) if (by as usize) < book.count() && by != f.support.k => {
            match split(alloc, book, f, PlaneId { k: by })? {
                Split::Front(front) => Ok((Some(front), None)),
                Split::Back(back) => Ok((None, Some(back))),
                Split::Both(front, back) => Ok((Some(front), Some(back))),
            }
        }
        _ => Ok((None, None)),
    }
}

/// The part of a fragment on a side of a plane, if there is one.
fn half(
    alloc: Global,
    book: &PlaneBook,
    part: Option<Frag>,
    side: Side,
) -> Result<Option<Frag>, AllocError>
    requires fragment { IfSome part (IsFragment book.now) }
    ensures fragment { IfOk result (λ o. IfSome o (IsFragment book.now)) }
{
    let (front, back) = parts(alloc, book, &part, side.0)?;
    Ok(if side.1 { front } else { back })
}

/// The square between 0 and 4 along x and y in the plane z = 0.
fn square(alloc: Global, book: &PlaneBook) -> Result<Option<Frag>, AllocError>
    ensures fragment { IfOk result (λ o. IfSome o (IsFragment book.now)) }
{
    let part = whole(alloc, book, 6)?;
    let part = half(alloc, book, part, (7, true))?;
    let part = half(alloc, book, part, (8, false))?;
    let part = half(alloc, book, part, (9, true))?;
    half(alloc, book, part, (10, false))
}

/// The square whole.
const ALL: [Place; 4] = [(4, 0, 0, 1), (4, 4, 0, 1), (0, 4, 0, 1), (0, 0, 0, 1)];

/// Planes that cut edges of the square, then planes through one and two of its corners, and those that leave it whole: one
/// that holds a corner, and two that hold none. By each the corners in front and behind.
const CUTS: [(u32, &[Place], &[Place]); 7] = [
    (
        11,
        &[(4, 0, 0, 1), (4, 4, 0, 1), (1, 4, 0, 1), (1, 0, 0, 1)],
        &[(1, 4, 0, 1), (0, 4, 0, 1), (0, 0, 0, 1), (1, 0, 0, 1)],
    ),
    // 2x + 3y = 9 meets x = 4 at y = 1/3, between grid steps.
    (
        12,
        &[(12, 1, 0, 3), (4, 4, 0, 1), (0, 4, 0, 1), (0, 3, 0, 1)],
        &[(4, 0, 0, 1), (12, 1, 0, 3), (0, 3, 0, 1), (0, 0, 0, 1)],
    ),
    (
        13,
        &[(4, 0, 0, 1), (4, 4, 0, 1), (0, 2, 0, 1), (0, 0, 0, 1)],
        &[(4, 4, 0, 1), (0, 4, 0, 1), (0, 2, 0, 1)],
    ),
    (
        14,
        &[(4, 0, 0, 1), (4, 4, 0, 1), (0, 0, 0, 1)],
        &[(4, 4, 0, 1), (0, 4, 0, 1), (0, 0, 0, 1)],
    ),
    (15, &[], &ALL),
    (16, &[], &ALL),
    (17, &ALL, &[]),
];

/// Whether a fragment has these corners.
fn is_at(
    alloc: Global,
    book: &PlaneBook,
    part: &Option<Frag>,
    want: &[Place],
) -> Result<bool, AllocError>
    requires fragment { IfSome part.now (IsFragment book.now) }
{
    Ok(places(alloc, book, part)?.as_slice() == want)
}

/// Whether these are the corners of what lies of the square in front of the plane of a number, and of what lies behind it.
fn are_cut(
    alloc: Global,
    book: &PlaneBook,
    by: u32,
    in_front: &[Place],
    behind: &[Place],
) -> Result<bool, AllocError> {
    let square = square(alloc, book)?;
    let (front, back) = parts(alloc, book, &square, by)?;
    Ok(is_at(alloc, book, &front, in_front)? && is_at(alloc, book, &back, behind)?)
}

#[test]
fn cuts_a_square(rt: HostRuntime) -> Result<(), AllocError> {
    let book = book_of(rt.alloc(), &PLANES)?;
    for (by, in_front, behind) in &CUTS {
        assert!(rt;
            are_cut(rt.alloc(), &book, *by, in_front, behind)?,
            "by {by}"
        );
    }
    Ok(())
}

/// What lies in the cube of a plane, of two that touch a corner and an edge of the cube, and of a wall: the corners.
const WHOLE: [(u32, &[Place]); 4] = [
    (
        18,
        &[
            (M, 0, -M, 1),
            (0, M, -M, 1),
            (-M, M, 0, 1),
            (-M, 0, M, 1),
            (0, -M, M, 1),
            (M, -M, 0, 1),
        ],
    ),
    (19, &[]),
    (20, &[]),
    (
        1,
        &[(M, -M, -M, 1), (M, M, -M, 1), (M, M, M, 1), (M, -M, M, 1)],
    ),
];

/// Whether what lies in the cube of a plane has these corners.
fn is_whole(alloc: Global, book: &PlaneBook, k: u32, want: &[Place]) -> Result<bool, AllocError> {
    is_at(alloc, book, &whole(alloc, book, k)?, want)
}

#[test]
fn finds_the_part_in_the_cube(rt: HostRuntime) -> Result<(), AllocError> {
    let book = book_of(rt.alloc(), &PLANES)?;
    for (k, want) in &WHOLE {
        assert!(rt; is_whole(rt.alloc(), &book, *k, want)?, "at {k}");
    }
    Ok(())
}
