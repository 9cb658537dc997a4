ghost use Rattle.std.specs.Prelude.{◌≡◌, IfSome};
ghost use Rattle.tree_pool.specs.Trees.{leaf};
ghost use Rattle.tree_merge.specs.declared.work.Next.TheVariants.{Settled};
ghost use Rattle.tree_merge.specs.Works.{Two, StandForTwo, AreLive, IsNext};

use crate::table::Table4;
use crate::work::{Next, Pair};
use tree_pool::{Pool, PoolNode};

/// How the merge begins where the first tree is a leaf: with one value where the second tree is a leaf too or changes
/// nothing, and else with the plane of the second tree.
fn next_of_second(pool: &Pool, table: Table4, pair: Pair, value: bool) -> Next
    requires live { AreLive pool.now pair }
    ensures next { (w : Two) → StandForTwo pool.now pair w → w.first ≡ leaf value → IsNext pool.now table pair w result }
{
    if table.is_settled_by_first(value) {
        return Next::Settled(table.value(value, true));
    }
    match pool.get(pair.second) {
        PoolNode::Leaf(second) => Next::Settled(table.value(value, second)),
        PoolNode::Node { plane, front, back } => Next::Divided {
            plane,
            front: Pair {
                first: pair.first,
                second: front,
            },
            back: Pair {
                first: pair.first,
                second: back,
            },
        },
    }
}

/// Whether the second tree is a leaf beside which the first tree changes nothing.
fn settled_by_second(pool: &Pool, table: Table4, pair: Pair) -> Option<bool>
    requires live { AreLive pool.now pair }
    ensures settled { IfSome result (λ v. (w : Two) → StandForTwo pool.now pair w → IsNext pool.now table pair w (Settled v)) }
{
    match pool.get(pair.second) {
        PoolNode::Leaf(second) => {
            if table.is_settled_by_second(second) {
                return Some(table.value(true, second));
            }
            None
        }
        PoolNode::Node { .. } => None,
    }
}

/// How the merge of two trees begins.
pub(crate) fn next(pool: &Pool, table: Table4, pair: Pair) -> Next
    requires live { AreLive pool.now pair }
    ensures next { (w : Two) → StandForTwo pool.now pair w → IsNext pool.now table pair w result }
{
    match pool.get(pair.first) {
        PoolNode::Leaf(first) => next_of_second(pool, table, pair, first),
        PoolNode::Node { plane, front, back } => {
            if let Some(value) = settled_by_second(pool, table, pair) {
                return Next::Settled(value);
            }
            Next::Divided {
                plane,
                front: Pair {
                    first: front,
                    second: pair.second,
                },
                back: Pair {
                    first: back,
                    second: pair.second,
                },
            }
        }
    }
}
