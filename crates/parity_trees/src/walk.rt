ghost use Rattle.std.specs.Prelude.{IfOk};
ghost use Rattle.plane_cells.specs.Cells.{IsCellOf};
ghost use Rattle.tree_pool.specs.Trees.{Tree};
ghost use Rattle.tree_pool.specs.Pools.{IsLive, StandsFor, KeepsTrees, AreTrees};
ghost use Rattle.tree_pool.specs.declared.node.TreeId.{TreeId as AnyId};
ghost use Rattle.parity_trees.specs.Regions.{IsParityOf};
ghost use Rattle.parity_trees.specs.Works.{IsMadeFor, sum_of};

use crate::regions::Region;
use crate::step::turn;
use crate::work::{Count, State, Turn, Work};
use plane_cells::Cell;
use plane_core::PlaneBook;
use std::alloc::{AllocError, Global};
use tree_pool::{Pool, TreeId};

/// Takes a walk to its end. The error is want of memory.
fn walk(alloc: Global, book: &PlaneBook, pool: &mut Pool, work: Work) -> Result<TreeId, AllocError>
    requires cell { IsCellOf book.now work.cell }
    ensures made { IfOk result (IsMadeFor pool.new book.now (record { steps = work.cell.steps.items; sum = sum_of work.count })) }
    ensures live { IfOk result (IsLive pool.new) }
    ensures kept { KeepsTrees pool.old pool.new }
    ensures trees { AreTrees pool.new }
{
    let _live = pool.count();
    let mut frames = Vec::new(alloc);
    let mut state = State::Down(work);
    'walk: loop {
        match turn(alloc, book, pool, state, &mut frames)? {
            Turn::On(next) => state = next,
            Turn::Done(id) => return Ok(id),
        }
    }
}

/// The tree that is true where an odd number of the regions holds the point: at each point strictly inside the enclosing
/// cube and off the planes of the regions. Its planes are among theirs. The numbers of the pool keep their trees. The error
/// is want of memory.
pub fn parity_tree(
    alloc: Global,
    book: &PlaneBook,
    pool: &mut Pool,
    regions: Vec<Region>,
) -> Result<TreeId, AllocError>
    ensures parity { IfOk result (λ id. (t : Tree) → StandsFor pool.new id t → IsParityOf book.now regions.items t) }
    ensures live { IfOk result (IsLive pool.new) }
    ensures kept { KeepsTrees pool.old pool.new }
    ensures still_live { (id : AnyId) → IsLive pool.old id → IsLive pool.new id }
    ensures trees { AreTrees pool.new }
{
    let _live = pool.count();
    let cell = Cell::root(alloc)?;
    let count = Count {
        regions,
        odd: false,
    };
    walk(alloc, book, pool, Work { cell, count })
}
