ghost use Rattle.std.specs.Prelude.{◌≡◌, ◌<◌, ◌++◌, [], ◌∷◌, List, length, IfOk};
ghost use Rattle.plane_core.specs.declared.numbers.Plane.{Plane};
ghost use Rattle.plane_cells.specs.Cells.{IsCutOf, IsCellOf};
ghost use Rattle.plane_cells.specs.declared.steps.Cut.TheVariants.{Crosses};
ghost use Rattle.poly_frag.specs.Frags.{plane_at};
ghost use Rattle.tree_pool.specs.Pools.{Slots, IsLive, KeepsTrees, AreTrees};
ghost use Rattle.tree_merge.specs.declared.table.Table4.{Table4};
ghost use Rattle.tree_merge.specs.declared.work.Pair.{Pair};
ghost use Rattle.tree_merge.specs.declared.work.State.TheVariants.{Down, Up};
ghost use Rattle.tree_merge.specs.Works.{Two, StandForTwo, AreLive, Goal, IsDivided, IsFrameLive, IsWalkFor, GoesOn, IsTurn};

use crate::next::next;
use crate::table::Table4;
use crate::work::{Frame, Next, Pair, State, Turn, Work};
use plane_cells::{Cell, Cut};
use plane_core::{PlaneBook, PlaneId};
use std::alloc::{AllocError, Global};
use tree_pool::{Pool, TreeId};

/// Where the points of a cell lie at a plane. A plane that the book does not have counts as one behind which none lies.
fn side_of(book: &PlaneBook, cell: &Cell, plane: PlaneId) -> Cut
    requires cell { IsCellOf book.now cell.now }
    ensures answer { IsCutOf book.now cell.now.steps.items (plane_at book.now plane) result }
    ensures given { result ≡ Crosses → plane.k < length book.now }
{
    if plane.k as usize >= book.count() {
        return Cut::FrontOnly;
    }
    cell.side_of(book, plane)
}

/// Goes on at a plane: to the part where the cell lies, or to both parts, of which the one behind waits. The error is want
/// of memory.
fn divide(
    alloc: Global,
    book: &PlaneBook,
    cell: Cell,
    plane: PlaneId,
    front: Pair,
    back: Pair,
    frames: &mut Vec<Frame>,
) -> Result<State, AllocError>
    requires cell { IsCellOf book.now cell }
    ensures walk { IfOk result (λ state. (pool : Slots) (table : Table4) (pair : Pair) → ((w : Two) → StandForTwo pool pair w → IsDivided pool table pair w plane.k front back) → GoesOn book.now table pool (Down (record { cell = cell; pair = pair })) frames.old.items pool state frames.new.items) }
{
    match side_of(book, &cell, plane) {
        Cut::FrontOnly => Ok(State::Down(Work { cell, pair: front })),
        Cut::BackOnly => Ok(State::Down(Work { cell, pair: back })),
        Cut::Crosses => {
            let (before, behind) = cell.cut(alloc, book, plane)?;
            let work = Work {
                cell: behind,
                pair: back,
            };
            frames.push(Frame::Back { plane, work })?;
            Ok(State::Down(Work {
                cell: before,
                pair: front,
            }))
        }
    }
}

/// Takes a walk one step down. The error is want of memory.
fn go_down(
    alloc: Global,
    book: &PlaneBook,
    pool: &Pool,
    table: Table4,
    work: Work,
    frames: &mut Vec<Frame>,
) -> Result<State, AllocError>
    requires cell { IsCellOf book.now work.cell }
    requires live { AreLive pool.now work.pair }
    ensures walk { IfOk result (λ state. GoesOn book.now table pool.now (Down work) frames.old.items pool.now state frames.new.items) }
{
    let Work { cell, pair } = work;
    match next(pool, table, pair) {
        Next::Settled(value) => Ok(State::Up(pool.leaf(value))),
        Next::Divided { plane, front, back } => {
            divide(alloc, book, cell, plane, front, back, frames)
        }
    }
}

/// Goes on with what waited for a merge. The error is want of memory.
fn go_on(
    pool: &mut Pool,
    frame: Frame,
    id: TreeId,
    frames: &mut Vec<Frame>,
) -> Result<State, AllocError>
    requires live { IsLive pool.old id }
    requires frame { IsFrameLive pool.old frame }
    requires trees { AreTrees pool.old }
    ensures walk { IfOk result (λ state. (planes : List Plane) (table : Table4) → GoesOn planes table pool.old (Up id) (frames.old.items ++ frame ∷ []) pool.new state frames.new.items) }
    ensures kept { KeepsTrees pool.old pool.new }
    ensures trees { AreTrees pool.new }
{
    match frame {
        Frame::Back { plane, work } => {
            frames.push(Frame::Join { plane, front: id })?;
            Ok(State::Down(work))
        }
        Frame::Join { plane, front } => Ok(State::Up(pool.node(plane, front, id)?)),
    }
}

/// Takes a walk one turn on. The error is want of memory.
pub(crate) fn turn(
    alloc: Global,
    book: &PlaneBook,
    pool: &mut Pool,
    table: Table4,
    state: State,
    frames: &mut Vec<Frame>,
) -> Result<Turn, AllocError>
    requires walk { (whole : Goal) × IsWalkFor pool.old book.now table whole state frames.old.items }
    requires trees { AreTrees pool.old }
    ensures turn { IfOk result (IsTurn book.now table pool.old state frames.old.items pool.new frames.new.items) }
    ensures kept { KeepsTrees pool.old pool.new }
    ensures trees { AreTrees pool.new }
{
    match state {
        State::Down(work) => {
            let next = go_down(alloc, book, pool, table, work, frames)?;
            Ok(Turn::On(next))
        }
        State::Up(id) => match frames.pop() {
            Some(frame) => {
                let next = go_on(pool, frame, id, frames)?;
                Ok(Turn::On(next))
            }
            None => Ok(Turn::Done(id)),
        },
    }
}
