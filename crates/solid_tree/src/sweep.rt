ghost use Rattle.std.specs.Prelude.{◌≡◌, ◌∷◌, Contains, IfOk, OnOk};
ghost use Rattle.tree_pool.specs.declared.node.TreeId.{TreeId as AnyId};
ghost use Rattle.tree_pool.specs.Trees.{Tree};
ghost use Rattle.tree_pool.specs.Pools.{IsLive, StandsFor, AreTrees};
ghost use Rattle.solid_tree.specs.Kept.{KeepsTreesOf, HasOnly};

use std::alloc::{AllocError, Global};
use tree_pool::{Pool, TreeId};

/// The number, and behind it those of the list. The error is want of memory.
fn before(alloc: Global, first: TreeId, rest: &[TreeId]) -> Result<Vec<TreeId>, AllocError>
    ensures { IfOk result (λ ids. ids.items ≡ first ∷ rest.now) }
{
    let mut ids = Vec::new(alloc);
    ids.push(first)?;
    ids.extend_from_slice(rest)?;
    Ok(ids)
}

/// Takes out all numbers but those of the two leaves and of what the tree and the numbers of `keep` reach. The error is want
/// of memory, and then each number keeps its tree.
pub(crate) fn sweep_others(
    alloc: Global,
    pool: &mut Pool,
    tree: TreeId,
    keep: &[TreeId],
) -> Result<(), AllocError>
    requires live { IsLive pool.old tree }
    requires keep_live { (x : AnyId) → Contains keep.now x → IsLive pool.old x }
    ensures live { OnOk result (IsLive pool.new tree) }
    ensures stands { OnOk result ((t : Tree) → StandsFor pool.old tree t → StandsFor pool.new tree t) }
    ensures kept { KeepsTreesOf keep.now pool.old pool.new }
    ensures only { OnOk result (HasOnly (tree ∷ keep.now) pool.new) }
    ensures trees { AreTrees pool.new }
{
    let _live = pool.count();
    let roots = before(alloc, tree, keep)?;
    pool.sweep(alloc, roots.as_slice())
}
