ghost use Rattle.std.specs.Prelude.{IfOk};
ghost use Rattle.tree_pool.specs.Pools.{IsLive};
ghost use Rattle.tree_pool.specs.declared.node.TreeId.{TreeId};

use crate::books::{Numbers, book_of, point};
use crate::trees::{Side, inside};
use plane_core::PlaneBook;
use std::alloc::{AllocError, Global};
use std::ops::Range;
use tree_merge::{Table4, merge};
use tree_pool::{Pool, TreeId, value_at};

/// The walls of the cubes from 0 to 4 and from 2 to 6, numbers 6 to 17, and the slanted planes x + y = 7.5 and
/// x - z = 1.5, numbers 18 and 19.
const PLANES: [Numbers; 14] = [
    [1, 0, 0, 0],
    [1, 0, 0, 4],
    [0, 1, 0, 0],
    [0, 1, 0, 4],
    [0, 0, 1, 0],
    [0, 0, 1, 4],
    [1, 0, 0, 2],
    [1, 0, 0, 6],
    [0, 1, 0, 2],
    [0, 1, 0, 6],
    [0, 0, 1, 2],
    [0, 0, 1, 6],
    [2, 2, 0, 15],
    [2, 0, -2, 3],
];

/// Points, and whether they lie in the cube from 0 to 4, in the cube from 2 to 6, and where x + y < 7.5 and x - z > 1.5: told
/// by hand, from their coordinates.
const TOLD: [([i64; 3], bool, bool, bool); 20] = [
    ([-1, 1, 1], false, false, false),
    ([-1, 1, 3], false, false, false),
    ([-1, 3, 1], false, false, false),
    ([-1, 3, 3], false, false, false),
    ([1, 1, 1], true, false, false),
    ([1, 1, 3], true, false, false),
    ([1, 3, 1], true, false, false),
    ([1, 3, 3], true, false, false),
    ([3, 1, 1], true, false, true),
    ([3, 1, 3], true, false, false),
    ([3, 3, 1], true, false, true),
    ([3, 3, 3], true, true, false),
    ([5, 1, 1], false, false, true),
    ([5, 1, 3], false, false, true),
    ([5, 3, 1], false, false, false),
    ([5, 3, 3], false, true, false),
    ([7, 1, 1], false, false, false),
    ([7, 1, 3], false, false, false),
    ([7, 3, 1], false, false, false),
    ([7, 3, 3], false, false, false),
];

/// The walls of the cube from 0 to 4, by their numbers, and on which side of each the cube lies.
const FIRST: [Side; 6] = [
    (6, true),
    (7, false),
    (8, true),
    (9, false),
    (10, true),
    (11, false),
];

/// Those of the cube from 2 to 6.
const SECOND: [Side; 6] = [
    (12, true),
    (13, false),
    (14, true),
    (15, false),
    (16, true),
    (17, false),
];

/// The sides of the slanted planes.
const SLANTED: [Side; 2] = [(18, false), (19, true)];

/// What the table with these four bits has for two values.
fn value_in(bits: u8, first: bool, second: bool) -> bool {
    let place = match (first, second) {
        (true, true) => 8,
        (true, false) => 4,
        (false, true) => 2,
        (false, false) => 1,
    };
    bits & place != 0
}

/// Whether the merge of the first cube and of the other body has the table's value at each of the points.
fn agrees(pool: &Pool, tree: TreeId, book: &PlaneBook, bits: u8, is_slanted: bool) -> bool
    requires live { IsLive pool.now tree }
{
    for (place, first, cube, slanted) in &TOLD {
        let Some(corner) = point(*place, 1) else {
            return false;
        };
        let second = if is_slanted { *slanted } else { *cube };
        if value_at(pool, tree, book, &corner) != Some(value_in(bits, *first, second)) {
            return false;
        }
    }
    true
}

/// The first of the sixteen tables whose merge does not agree.
fn first_faulty(
    alloc: Global,
    pool: &mut Pool,
    a: TreeId,
    b: TreeId,
    is_slanted: bool,
) -> Result<Option<u8>, AllocError>
    requires first_live { IsLive pool.old a }
    requires second_live { IsLive pool.old b }
{
    let book = book_of(alloc, &PLANES)?;
    for bits in 0..16 {
        let table = Table4 {
            both: bits & 8 != 0,
            first_only: bits & 4 != 0,
            second_only: bits & 2 != 0,
            neither: bits & 1 != 0,
        };
        let tree = merge(alloc, &book, pool, a, b, table)?;
        if !agrees(pool, tree, &book, bits, is_slanted) {
            return Ok(Some(bits));
        }
    }
    Ok(None)
}

/// The first of the tables under which the merge of the first cube and of a body does not agree.
fn faulty_table(alloc: Global, body: &[Side], is_slanted: bool) -> Result<Option<u8>, AllocError> {
    let mut pool = Pool::new(alloc)?;
    let a = inside(&mut pool, &FIRST)?;
    let b = inside(&mut pool, body)?;
    first_faulty(alloc, &mut pool, a, b, is_slanted)
}

#[test]
fn merges_a_cube_and_a_body_under_all_tables(rt: HostRuntime) -> Result<(), AllocError> {
    assert!(rt; faulty_table(rt.alloc(), &SECOND, false)?.is_none());
    assert!(rt; faulty_table(rt.alloc(), &SLANTED, true)?.is_none());
    Ok(())
}

/// The backs of the planes of these numbers.
fn backs(alloc: Global, numbers: Range<u32>) -> Result<Vec<Side>, AllocError> {
    let mut sides = Vec::new(alloc);
    for k in numbers {
        sides.push((k, false))?;
    }
    Ok(sides)
}

/// The tree of what is behind all planes of these numbers.
fn chain(alloc: Global, pool: &mut Pool, numbers: Range<u32>) -> Result<TreeId, AllocError>
    ensures live { IfOk result (IsLive pool.new) }
    ensures still_live { (id : TreeId) → IsLive pool.old id → IsLive pool.new id }
{
    let sides = backs(alloc, numbers)?;
    inside(pool, sides.as_slice())
}

/// The planes x = 0, 1, 2 and so on, and then those of y.
fn chained_planes(alloc: Global) -> Result<Vec<Numbers>, AllocError> {
    let mut planes = Vec::new(alloc);
    for d in 0..4096u16 {
        planes.push([1, 0, 0, i64::from(d)])?;
    }
    for d in 0..4096u16 {
        planes.push([0, 1, 0, i64::from(d)])?;
    }
    Ok(planes)
}

/// The book of those planes.
fn chained_book(alloc: Global) -> Result<PlaneBook, AllocError> {
    let planes = chained_planes(alloc)?;
    book_of(alloc, planes.as_slice())
}

/// The value of a tree at the point behind all planes of the chains.
fn value_behind(pool: &Pool, tree: TreeId, book: &PlaneBook) -> Option<bool>
    requires live { IsLive pool.now tree }
{
    value_at(pool, tree, book, &point([-1, -1, 0], 2)?)
}

const BOTH: Table4 = Table4 {
    both: true,
    first_only: false,
    second_only: false,
    neither: false,
};

/// One tree is of what is behind all of x = 0, 1, 2 and so on, and the other of y.
#[test]
fn merges_high_chains(rt: HostRuntime) -> Result<(), AllocError> {
    let book = chained_book(rt.alloc())?;
    let mut pool = Pool::new(rt.alloc())?;
    let a = chain(rt.alloc(), &mut pool, 6..4102)?;
    let b = chain(rt.alloc(), &mut pool, 4102..8198)?;
    assert!(rt; pool.count() == 2 + 2 * 4096);
    let tree = merge(rt.alloc(), &book, &mut pool, a, b, BOTH)?;
    // The nodes of the second chain are there already.
    assert!(rt; pool.count() == 2 + 3 * 4096);
    assert!(rt; value_behind(&pool, tree, &book) == Some(true));
    Ok(())
}
