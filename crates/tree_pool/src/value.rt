ghost use Rattle.std.specs.Prelude.{◌≡◌, ◌<◌, length, slice_get, Some};
ghost use Rattle.plane_core.specs.Views.{point_of};
ghost use Rattle.tree_pool.specs.Trees.{Tree, level_by, choose, value_of};
ghost use Rattle.tree_pool.specs.Pools.{IsLive, StandsFor};

use crate::node::{PoolNode, TreeId};
use crate::pool::Pool;
use plane_core::{Corner, PlaneBook, PlaneId, Sign, side};

/// Where a walk goes on from a node: to the front or the back, by the side of the corner, and nowhere where it lies on the
/// plane or the book has no such plane.
fn turn(book: &PlaneBook, plane: PlaneId, front: TreeId, back: TreeId, c: &Corner) -> Option<TreeId>
    ensures { result ≡ choose (level_by (slice_get book.now plane.k) (point_of c.now)) (Some front) (Some back) }
{
    if plane.k as usize >= book.count() {
        return None;
    }
    match side(book.plane(plane), c) {
        Sign::Front => Some(front),
        Sign::Back => Some(back),
        Sign::On => None,
    }
}

/// The value of a tree at a corner: that of the leaf that the walk by the sides of its planes reaches. `None` where the
/// walk meets a plane that holds the corner, or one that the book does not have.
pub fn value_at(pool: &Pool, id: TreeId, book: &PlaneBook, c: &Corner) -> Option<bool>
    requires live { IsLive pool.now id }
    ensures value { (t : Tree) → StandsFor pool.now id t → result ≡ value_of book.now t (point_of c.now) }
{
    let mut at = id;
    loop {
        match pool.get(at) {
            PoolNode::Leaf(value) => return Some(value),
            PoolNode::Node { plane, front, back } => match turn(book, plane, front, back, c) {
                Some(next) => at = next,
                None => return None,
            },
        }
    }
}
