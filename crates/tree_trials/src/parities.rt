ghost use Rattle.tree_pool.specs.Pools.{IsLive};

use crate::books::{book_of, point};
use parity_trees::{Region, parity_tree};
use plane_cells::Step;
use plane_core::{PlaneBook, PlaneId};
use smallvec::SmallVec;
use std::alloc::{AllocError, Global};
use tree_pool::{Pool, TreeId, value_at};

/// The points with x above 1, and of these those with y below 1; the planes have the numbers 6 and 7.
fn regions(alloc: Global) -> Result<Vec<Region>, AllocError> {
    let right = Step {
        plane: PlaneId { k: 6 },
        in_front: true,
    };
    let near = Step {
        plane: PlaneId { k: 7 },
        in_front: false,
    };
    let mut regions = Vec::new(alloc);
    let sides = SmallVec::from_slice(alloc, &[right])?;
    regions.push(Region { sides })?;
    let sides = SmallVec::from_slice(alloc, &[right, near])?;
    regions.push(Region { sides })?;
    Ok(regions)
}

/// The value of a tree at a point with z = 0.
fn value(pool: &Pool, tree: TreeId, book: &PlaneBook, x: i64, y: i64) -> Option<bool>
    requires live { IsLive pool.now tree }
{
    value_at(pool, tree, book, &point([x, y, 0], 1)?)
}

/// Points, and whether an odd number of the regions holds them.
const POINTS: [(i64, i64, Option<bool>); 5] = [
    (0, 0, Some(false)),
    (2, 0, Some(false)),
    (2, 2, Some(true)),
    (0, 2, Some(false)),
    (1, 2, None),
];

#[test]
fn counts_the_regions_that_hold_a_point(rt: HostRuntime) -> Result<(), AllocError> {
    let book = book_of(rt.alloc(), &[[1, 0, 0, 1], [0, 1, 0, 1]])?;
    let mut pool = Pool::new(rt.alloc())?;
    let tree = parity_tree(rt.alloc(), &book, &mut pool, regions(rt.alloc())?)?;
    for (x, y, want) in &POINTS {
        assert!(rt; value(&pool, tree, &book, *x, *y) == *want, "at {x}, {y}");
    }
    Ok(())
}

#[test]
fn holds_nothing_in_no_region(rt: HostRuntime) -> Result<(), AllocError> {
    let book = book_of(rt.alloc(), &[])?;
    let mut pool = Pool::new(rt.alloc())?;
    let none = parity_tree(rt.alloc(), &book, &mut pool, Vec::new(rt.alloc()))?;
    assert!(rt; none == pool.leaf(false));
    Ok(())
}
