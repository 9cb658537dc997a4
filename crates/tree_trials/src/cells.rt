ghost use Rattle.std.specs.Prelude.{◌≡◌, ◌<◌, length, All, IfOk};

use crate::books::{Numbers, book_of};
use crate::trees::Side;
use plane_cells::{Cell, Cut, Step, cuts, polygon};
use plane_core::{PlaneBook, PlaneId};
use poly_frag::corners;
use std::alloc::{AllocError, Global};

/// The planes x = 0, x = 4, y = 0, y = 4, z = 0 and x + y = 4, numbers 6 to 11.
const PLANES: [Numbers; 6] = [
    [1, 0, 0, 0],
    [1, 0, 0, 4],
    [0, 1, 0, 0],
    [0, 1, 0, 4],
    [0, 0, 1, 0],
    [1, 1, 0, 4],
];

/// The step to a side.
fn step(side: Side) -> Step
    ensures { result.plane.k ≡ side.0 }
{
    Step {
        plane: PlaneId { k: side.0 },
        in_front: side.1,
    }
}

/// The steps of a path, as far as the book has their planes.
fn steps(alloc: Global, book: &PlaneBook, path: &[Side]) -> Result<Vec<Step>, AllocError>
    ensures given { IfOk result (λ ss. All (λ s. s.plane.k < length book.now) ss.items) }
{
    let mut steps = Vec::new(alloc);
    for side in path {
        let step = step(*side);
        if (step.plane.k as usize) < book.count() {
            steps.push(step)?;
        }
    }
    Ok(steps)
}

/// The answer of `cuts` at the plane of a number.
fn answer(
    alloc: Global,
    book: &PlaneBook,
    path: &[Side],
    k: u32,
) -> Result<Option<Cut>, AllocError> {
    if k as usize >= book.count() {
        return Ok(None);
    }
    let path = steps(alloc, book, path)?;
    Ok(Some(cuts(alloc, book, &path, PlaneId { k })?))
}

/// The square between 0 and 4 along x and y.
const SQUARE: [Side; 4] = [(6, true), (7, false), (8, true), (9, false)];

/// Paths, numbers of planes, and where the cells of the paths lie at the planes.
const CUTS: [(&[Side], u32, Cut); 9] = [
    (&[], 0, Cut::FrontOnly),
    (&[], 1, Cut::BackOnly),
    (&[], 11, Cut::Crosses),
    (&SQUARE, 6, Cut::FrontOnly),
    (&SQUARE, 7, Cut::BackOnly),
    (&SQUARE, 10, Cut::Crosses),
    (&SQUARE, 11, Cut::Crosses),
    // x + y = 4 touches the corner of x > 4, y > 0 alone.
    (&[(7, true), (8, true)], 11, Cut::FrontOnly),
    // The path has no point.
    (&[(6, false), (7, true)], 1, Cut::FrontOnly),
];

#[test]
fn tells_the_sides(rt: HostRuntime) -> Result<(), AllocError> {
    let book = book_of(rt.alloc(), &PLANES)?;
    for (path, k, want) in &CUTS {
        assert!(rt;
            answer(rt.alloc(), &book, path, *k)? == Some(*want),
            "at {k}"
        );
    }
    Ok(())
}

/// How many corners the plane's part of the cell of a path has, and none where there is no part.
fn corner_count(
    alloc: Global,
    book: &PlaneBook,
    path: &[Side],
    k: u32,
) -> Result<usize, AllocError> {
    if k as usize >= book.count() {
        return Ok(0);
    }
    let path = steps(alloc, book, path)?;
    match polygon(alloc, book, &path, PlaneId { k })? {
        Some(part) => Ok(corners(alloc, book, &part)?.len()),
        None => Ok(0),
    }
}

/// Paths, numbers of planes, and how many corners the planes' parts of the cells have.
const PARTS: [(&[Side], u32, usize); 4] = [
    (&SQUARE, 10, 4),
    (&SQUARE, 6, 0),
    (&[(11, false), (6, true), (8, true)], 10, 3),
    (&[], 1, 0),
];

#[test]
fn finds_the_part_of_a_plane(rt: HostRuntime) -> Result<(), AllocError> {
    let book = book_of(rt.alloc(), &PLANES)?;
    for (path, k, want) in &PARTS {
        assert!(rt;
            corner_count(rt.alloc(), &book, path, *k)? == *want,
            "at {k}"
        );
    }
    Ok(())
}

/// How many steps are left of a path of two steps, and 0 where it has no point.
fn steps_left(
    alloc: Global,
    book: &PlaneBook,
    first: Side,
    second: Side,
) -> Result<usize, AllocError> {
    if first.0 as usize >= book.count() || second.0 as usize >= book.count() {
        return Ok(0);
    }
    let root = Cell::root(alloc)?;
    let Some(part) = root.follow(alloc, book, step(first))? else {
        return Ok(0);
    };
    match part.follow(alloc, book, step(second))? {
        Some(part) => Ok(part.steps.len()),
        None => Ok(0),
    }
}

/// How many corners and steps the cell of no step has.
fn counts_at_the_root(alloc: Global) -> Result<(usize, usize), AllocError> {
    let cell = Cell::root(alloc)?;
    Ok((cell.corners.len(), cell.steps.len()))
}

/// x > 0 and then x > 4, x > 4 and then x > 0, x > 0 and y > 0, x < 0 and x > 4; and how many steps are left.
const STEPS: [(Side, Side, usize); 4] = [
    ((6, true), (7, true), 1),
    ((7, true), (6, true), 1),
    ((6, true), (8, true), 2),
    ((6, false), (7, true), 0),
];

#[test]
fn leaves_out_steps_that_cut_nothing_off(rt: HostRuntime) -> Result<(), AllocError> {
    assert!(rt; counts_at_the_root(rt.alloc())? == (8, 0));
    let book = book_of(rt.alloc(), &PLANES)?;
    for (first, second, want) in &STEPS {
        let left = steps_left(rt.alloc(), &book, *first, *second)?;
        assert!(rt; left == *want, "at {first:?} and {second:?}");
    }
    Ok(())
}
