ghost use Rattle.std.specs.Prelude.{List, IfOk};
ghost use Rattle.plane_core.specs.declared.numbers.Plane.{Plane};
ghost use Rattle.plane_cells.specs.Cells.{IsCellOf};
ghost use Rattle.tree_pool.specs.Trees.{Tree};
ghost use Rattle.tree_pool.specs.Pools.{IsLive, StandsFor, KeepsTrees, AreTrees};
ghost use Rattle.tree_pool.specs.declared.node.TreeId.{TreeId};
ghost use Rattle.tree_merge.specs.Tables.{IsMergeOf};
ghost use Rattle.tree_merge.specs.Works.{Two, StandForTwo, AreLive, IsMadeFor};

use crate::step::turn;
use crate::table::Table4;
use crate::work::{Pair, State, Turn, Work};
use plane_cells::Cell;
use plane_core::PlaneBook;
use std::alloc::{AllocError, Global};
use tree_pool::{Pool, TreeId};

/// Takes a walk to its end. The error is want of memory.
fn walk(
    alloc: Global,
    book: &PlaneBook,
    pool: &mut Pool,
    table: Table4,
    work: Work,
) -> Result<TreeId, AllocError>
    requires cell { IsCellOf book.now work.cell }
    requires live { AreLive pool.old work.pair }
    ensures made { IfOk result (λ id. (w : Two) → StandForTwo pool.old work.pair w → IsMadeFor pool.new book.now table (record { steps = work.cell.steps.items; trees = w }) id) }
    ensures live { IfOk result (IsLive pool.new) }
    ensures kept { KeepsTrees pool.old pool.new }
    ensures trees { AreTrees pool.new }
{
    let _live = pool.count();
    let mut frames = Vec::new(alloc);
    let mut state = State::Down(work);
    'walk: loop {
        match turn(alloc, book, pool, table, state, &mut frames)? {
            Turn::On(next) => state = next,
            Turn::Done(id) => return Ok(id),
        }
    }
}

/// The first tree, or a leaf where the table ignores it.
fn needed_first(pool: &Pool, table: Table4, first: TreeId) -> TreeId
    requires live { IsLive pool.now first }
    ensures live { IsLive pool.now result }
    ensures needed { (f : Tree) → StandsFor pool.now first f → (h : Tree) × StandsFor pool.now result h × ((planes : List Plane) (g t : Tree) → IsMergeOf planes table h g t → IsMergeOf planes table f g t) }
{
    if table.ignores_first() {
        return pool.leaf(false);
    }
    first
}

/// The merge of two trees: at each point strictly inside the enclosing cube and off the planes of both trees it has what
/// the table has for their values, and its planes are among theirs. The walk stops where the other tree changes nothing.
/// The numbers of the pool keep their trees. The error is want of memory.
pub fn merge(
    alloc: Global,
    book: &PlaneBook,
    pool: &mut Pool,
    a: TreeId,
    b: TreeId,
    table: Table4,
) -> Result<TreeId, AllocError>
    requires first_live { IsLive pool.old a }
    requires second_live { IsLive pool.old b }
    ensures merged { IfOk result (λ id. (f g t : Tree) → StandsFor pool.old a f → StandsFor pool.old b g → StandsFor pool.new id t → IsMergeOf book.now table f g t) }
    ensures live { IfOk result (IsLive pool.new) }
    ensures kept { KeepsTrees pool.old pool.new }
    ensures still_live { (id : TreeId) → IsLive pool.old id → IsLive pool.new id }
    ensures trees { AreTrees pool.new }
{
    let _live = pool.count();
    let cell = Cell::root(alloc)?;
    let first = needed_first(pool, table, a);
    let pair = Pair { first, second: b };
    walk(alloc, book, pool, table, Work { cell, pair })
}
