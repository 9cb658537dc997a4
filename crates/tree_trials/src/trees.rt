ghost use Rattle.std.specs.Prelude.{IfOk};
ghost use Rattle.tree_pool.specs.Pools.{IsLive};
ghost use Rattle.tree_pool.specs.declared.node.TreeId.{TreeId};

use plane_core::PlaneId;
use std::alloc::AllocError;
use tree_pool::{Pool, TreeId};

/// The number of a plane, and whether its front is meant, or its back.
pub(crate) type Side = (u32, bool);

/// One tree for the points on all of these sides, and another elsewhere.
pub(crate) fn nested(
    pool: &mut Pool,
    sides: &[Side],
    inner: TreeId,
    outer: TreeId,
) -> Result<TreeId, AllocError>
    requires inner { IsLive pool.old inner }
    requires outer { IsLive pool.old outer }
    ensures live { IfOk result (IsLive pool.new) }
    ensures still_live { (id : TreeId) → IsLive pool.old id → IsLive pool.new id }
{
    let mut tree = inner;
    for (k, in_front) in sides {
        let (front, back) = if *in_front {
            (tree, outer)
        } else {
            (outer, tree)
        };
        tree = pool.node(PlaneId { k: *k }, front, back)?;
    }
    Ok(tree)
}

/// The tree that is true for the points on all of these sides.
pub(crate) fn inside(pool: &mut Pool, sides: &[Side]) -> Result<TreeId, AllocError>
    ensures live { IfOk result (IsLive pool.new) }
    ensures still_live { (id : TreeId) → IsLive pool.old id → IsLive pool.new id }
{
    let yes = pool.leaf(true);
    let no = pool.leaf(false);
    nested(pool, sides, yes, no)
}
