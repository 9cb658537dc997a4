ghost use Rattle.std.specs.Prelude.{◌++◌, [], ◌∷◌, Bool, List, Contains, IfOk};
ghost use Rattle.plane_core.specs.declared.numbers.Plane.{Plane};
ghost use Rattle.plane_cells.specs.Cells.{IsCellOf};
ghost use Rattle.tree_pool.specs.Pools.{Slots, IsLive, KeepsTrees, AreTrees};
ghost use Rattle.parity_trees.specs.declared.work.Work.{Work};
ghost use Rattle.parity_trees.specs.declared.work.State.TheVariants.{Down, Up};
ghost use Rattle.parity_trees.specs.Regions.{all_sides};
ghost use Rattle.parity_trees.specs.Works.{Goal, IsOnSide, IsPartWork, IsFrameLive, IsWalkFor, GoesOn, IsTurn};

use crate::left::left_in;
use crate::sides::{first_side, side_of};
use crate::work::{Count, Frame, State, Turn, Work};
use plane_cells::{Cell, Cut, Step};
use plane_core::{PlaneBook, PlaneId};
use std::alloc::{AllocError, Global};
use tree_pool::{Pool, TreeId};

/// The work in a cell that lies on the side of the step that was taken. The error is want of memory.
fn part(
    alloc: Global,
    book: &PlaneBook,
    cell: Cell,
    taken: Step,
    count: &Count,
) -> Result<Work, AllocError>
    requires cell { IsCellOf book.now cell }
    requires taken { IsOnSide book.now cell.steps.items taken }
    ensures part { IfOk result (IsPartWork book.now cell taken count.now) }
{
    let count = left_in(alloc, book, &cell, taken, count)?;
    Ok(Work { cell, count })
}

/// Goes on at a plane of a region: to the part where the cell lies, or to both parts, of which the one behind waits. The
/// error is want of memory.
fn divide(
    alloc: Global,
    book: &PlaneBook,
    work: Work,
    plane: PlaneId,
    frames: &mut Vec<Frame>,
) -> Result<State, AllocError>
    requires cell { IsCellOf book.now work.cell }
    requires given { (in_front : Bool) × Contains (all_sides work.count.regions.items) (record { plane = plane; in_front = in_front }) }
    ensures walk { IfOk result (λ state. (pool : Slots) → GoesOn book.now pool (Down work) frames.old.items pool state frames.new.items) }
{
    let Work { cell, count } = work;
    let front = Step {
        plane,
        in_front: true,
    };
    let back = Step {
        plane,
        in_front: false,
    };
    match side_of(book, &cell, plane) {
        Cut::FrontOnly => Ok(State::Down(part(alloc, book, cell, front, &count)?)),
        Cut::BackOnly => Ok(State::Down(part(alloc, book, cell, back, &count)?)),
        Cut::Crosses => {
            let (before, behind) = cell.cut(alloc, book, plane)?;
            let first = part(alloc, book, before, front, &count)?;
            let work = part(alloc, book, behind, back, &count)?;
            frames.push(Frame::Back { plane, work })?;
            Ok(State::Down(first))
        }
    }
}

/// Takes a walk one step down. The error is want of memory.
fn go_down(
    alloc: Global,
    book: &PlaneBook,
    pool: &Pool,
    work: Work,
    frames: &mut Vec<Frame>,
) -> Result<State, AllocError>
    requires cell { IsCellOf book.now work.cell }
    ensures walk { IfOk result (λ state. GoesOn book.now pool.now (Down work) frames.old.items pool.now state frames.new.items) }
{
    match first_side(&work.count.regions) {
        None => Ok(State::Up(pool.leaf(work.count.odd))),
        Some(side) => divide(alloc, book, work, side.plane, frames),
    }
}

/// Goes on with what waited for a tree. The error is want of memory.
fn go_on(
    pool: &mut Pool,
    frame: Frame,
    id: TreeId,
    frames: &mut Vec<Frame>,
) -> Result<State, AllocError>
    requires live { IsLive pool.old id }
    requires frame { IsFrameLive pool.old frame }
    requires trees { AreTrees pool.old }
    ensures walk { IfOk result (λ state. (planes : List Plane) → GoesOn planes pool.old (Up id) (frames.old.items ++ frame ∷ []) pool.new state frames.new.items) }
    ensures kept { KeepsTrees pool.old pool.new }
    ensures trees { AreTrees pool.new }
{
    match frame {
        Frame::Back { plane, work } => {
            frames.push(Frame::Join { plane, front: id })?;
            Ok(State::Down(work))
        }
        Frame::Join { plane, front } => Ok(State::Up(pool.node(plane, front, id)?)),
    }
}

/// Takes a walk one turn on. The error is want of memory.
pub(crate) fn turn(
    alloc: Global,
    book: &PlaneBook,
    pool: &mut Pool,
    state: State,
    frames: &mut Vec<Frame>,
) -> Result<Turn, AllocError>
    requires walk { (whole : Goal) × IsWalkFor pool.old book.now whole state frames.old.items }
    requires trees { AreTrees pool.old }
    ensures turn { IfOk result (IsTurn book.now pool.old state frames.old.items pool.new frames.new.items) }
    ensures kept { KeepsTrees pool.old pool.new }
    ensures trees { AreTrees pool.new }
{
    match state {
        State::Down(work) => {
            let next = go_down(alloc, book, pool, work, frames)?;
            Ok(Turn::On(next))
        }
        State::Up(id) => match frames.pop() {
            Some(frame) => {
                let next = go_on(pool, frame, id, frames)?;
                Ok(Turn::On(next))
            }
            None => Ok(Turn::Done(id)),
        },
    }
}
