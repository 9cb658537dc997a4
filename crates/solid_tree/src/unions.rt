ghost use Rattle.std.specs.Prelude.{◌≡◌, Bool, List, All, IfOk};
ghost use Rattle.spec_space.specs.declared.Plane.{Plane};
ghost use Rattle.spec_space.specs.declared.Point.{Point};
ghost use Rattle.spec_solid.specs.Solids.{truth};
ghost use Rattle.tree_pool.specs.Pools.{IsLive, KeepsTrees, AreTrees};
ghost use Rattle.tree_merge.specs.Tables.{entry};
ghost use Rattle.solid_tree.specs.Unions.{HasTree, AreUnited};

use plane_core::PlaneBook;
use spec_solid::BoolOp;
use std::alloc::{AllocError, Global};
use tree_merge::{Table4, merge};
use tree_pool::{Pool, TreeId};

/// The truth table of an operator.
pub(crate) fn table(operator: BoolOp) -> Table4
    ensures value { (p q : Bool) → entry result p q ≡ truth operator p q }
{
    match operator {
        BoolOp::Union => Table4 {
            both: true,
            first_only: true,
            second_only: true,
            neither: false,
        },
        BoolOp::Intersection => Table4 {
            both: true,
            first_only: false,
            second_only: false,
            neither: false,
        },
        BoolOp::Difference => Table4 {
            both: false,
            first_only: true,
            second_only: false,
            neither: false,
        },
    }
}

/// The tree of what an operator makes of the solids of two trees. The numbers of the pool keep their trees. The error is
/// want of memory.
pub(crate) fn combined(
    alloc: Global,
    book: &PlaneBook,
    pool: &mut Pool,
    operator: BoolOp,
    first: TreeId,
    second: TreeId,
) -> Result<TreeId, AllocError>
    requires first_live { IsLive pool.old first }
    requires second_live { IsLive pool.old second }
    ensures combined { IfOk result (λ id. (ks : List Plane) (p q : Point → Bool) → HasTree pool.old book.now ks p first → HasTree pool.old book.now ks q second → HasTree pool.new book.now ks (λ x. truth operator (p x) (q x)) id) }
    ensures live { IfOk result (IsLive pool.new) }
    ensures kept { KeepsTrees pool.old pool.new }
    ensures trees { AreTrees pool.new }
{
    merge(alloc, book, pool, first, second, table(operator))
}

/// The tree of what lies in some of the solids of trees: neighbours are united, then what is made of neighbours, and so on.
/// The numbers of the pool keep their trees. The error is want of memory.
pub(crate) fn united(
    alloc: Global,
    book: &PlaneBook,
    pool: &mut Pool,
    mut trees: Vec<TreeId>,
) -> Result<TreeId, AllocError>
    requires live { All (IsLive pool.old) trees.items }
    ensures united { IfOk result (λ id. (ks : List Plane) (p : Point → Bool) → AreUnited pool.old book.now ks p trees.items → HasTree pool.new book.now ks p id) }
    ensures live { IfOk result (IsLive pool.new) }
    ensures kept { KeepsTrees pool.old pool.new }
    ensures trees { AreTrees pool.new }
{
    let _live = pool.count();
    while trees.len() > 1 {
        let first = trees.remove(0);
        let second = trees.remove(0);
        let both = combined(alloc, book, pool, BoolOp::Union, first, second)?;
        trees.push(both)?;
    }
    match trees.pop() {
        Some(tree) => Ok(tree),
        None => Ok(pool.leaf(false)),
    }
}
