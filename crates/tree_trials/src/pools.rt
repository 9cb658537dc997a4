ghost use Rattle.std.specs.Prelude.{IfOk};
ghost use Rattle.tree_pool.specs.Pools.{IsLive};

use crate::books::{book_of, point};
use crate::trees::inside;
use plane_core::{PlaneBook, PlaneId};
use std::alloc::{AllocError, Global};
use tree_pool::{Pool, PoolNode, TreeId, value_at};

#[test]
fn gives_a_node_one_number(rt: HostRuntime) -> Result<(), AllocError> {
    let mut pool = Pool::new(rt.alloc())?;
    let (no, yes) = (pool.leaf(false), pool.leaf(true));
    assert!(rt; pool.get(yes) == PoolNode::Leaf(true));
    assert!(rt; pool.count() == 2);
    let first = pool.node(PlaneId { k: 0 }, no, yes)?;
    assert!(rt; pool.count() == 3);
    assert!(rt; pool.node(PlaneId { k: 0 }, no, yes)? == first);
    let turned = pool.node(PlaneId { k: 0 }, yes, no)?;
    assert!(rt; turned != first && pool.count() == 4);
    assert!(rt; pool.node(PlaneId { k: 0 }, turned, turned)? == turned);
    Ok(())
}

#[test]
fn sweeps_what_no_root_reaches(rt: HostRuntime) -> Result<(), AllocError> {
    let mut pool = Pool::new(rt.alloc())?;
    let (no, yes) = (pool.leaf(false), pool.leaf(true));
    let low = pool.node(PlaneId { k: 0 }, no, yes)?;
    let _lost = pool.node(PlaneId { k: 1 }, no, low)?;
    let top = pool.node(PlaneId { k: 2 }, low, yes)?;
    assert!(rt; pool.count() == 5);
    pool.sweep(rt.alloc(), &[top])?;
    assert!(rt; pool.count() == 4);
    Ok(())
}

/// The value of a tree at a point of the axis x.
fn value(pool: &Pool, tree: TreeId, book: &PlaneBook, x: i64) -> Option<bool>
    requires live { IsLive pool.now tree }
{
    value_at(pool, tree, book, &point([x, 0, 0], 1)?)
}

/// Places along x, and whether they are in front of x = 0.
const VALUES: [(i64, Option<bool>); 3] = [(1, Some(true)), (0, None), (-1, Some(false))];

#[test]
fn tells_the_value_by_the_sides(rt: HostRuntime) -> Result<(), AllocError> {
    let book = book_of(rt.alloc(), &[[1, 0, 0, 0]])?;
    let mut pool = Pool::new(rt.alloc())?;
    let tree = inside(&mut pool, &[(6, true)])?;
    for (x, want) in &VALUES {
        assert!(rt; value(&pool, tree, &book, *x) == *want, "at {x}");
    }
    Ok(())
}

/// Nodes of low walls of the enclosing cube, above a leaf that is true in front of all of them.
fn long_chain(alloc: Global, pool: &mut Pool) -> Result<TreeId, AllocError>
    ensures live { IfOk result (IsLive pool.new) }
{
    let mut sides = Vec::new(alloc);
    for k in 0..100_000 {
        sides.push((k % 3 * 2, true))?;
    }
    inside(pool, sides.as_slice())
}

/// The value of a tree of walls of the enclosing cube, at a point in it.
fn value_among_walls(alloc: Global, pool: &Pool, tree: TreeId) -> Result<Option<bool>, AllocError>
    requires live { IsLive pool.now tree }
{
    let book = book_of(alloc, &[])?;
    Ok(value(pool, tree, &book, 7))
}

#[test]
fn asks_and_sweeps_a_long_chain(rt: HostRuntime) -> Result<(), AllocError> {
    let mut pool = Pool::new(rt.alloc())?;
    let top = long_chain(rt.alloc(), &mut pool)?;
    assert!(rt; pool.count() == 100_002);
    assert!(rt; value_among_walls(rt.alloc(), &pool, top)? == Some(true));
    pool.sweep(rt.alloc(), &[top])?;
    assert!(rt; pool.count() == 100_002);
    pool.sweep(rt.alloc(), &[])?;
    assert!(rt; pool.count() == 2);
    Ok(())
}
