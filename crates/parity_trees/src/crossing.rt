ghost use Rattle.std.specs.Prelude.{IfOk, IfSome, IfNone};
ghost use Rattle.plane_cells.specs.Cells.{IsCellOf};
ghost use Rattle.parity_trees.specs.Works.{IsOnSide, AreCrossing, IsNowhere, IsLeft};

use crate::regions::Region;
use crate::sides::decided;
use crate::work::Left;
use plane_cells::{Cell, Step};
use plane_core::PlaneBook;
use smallvec::SmallVec;
use std::alloc::{AllocError, Global};

/// The sides of a region on which some points of a cell lie and some do not; `None` where none of its points lies on all
/// sides. The error is want of memory.
fn crossing_sides(
    alloc: Global,
    book: &PlaneBook,
    cell: &Cell,
    taken: Step,
    sides: &[Step],
) -> Result<Option<SmallVec<Step, 4>>, AllocError>
    requires cell { IsCellOf book.now cell.now }
    requires taken { IsOnSide book.now cell.now.steps.items taken }
    ensures crossing { IfOk result (λ o. IfSome o (λ crossing. AreCrossing book.now cell.now.steps.items taken sides.now crossing.items)) }
    ensures nowhere { IfOk result (λ o. IfNone o (IsNowhere book.now cell.now.steps.items sides.now)) }
{
    let mut crossing = SmallVec::new(alloc);
    for side in sides {
        match decided(book, cell, taken, *side) {
            None => crossing.push(*side)?,
            Some(true) => {}
            Some(false) => return Ok(None),
        }
    }
    Ok(Some(crossing))
}

/// What a cell, which lies on the side of the step that was taken, leaves of a region. The error is want of memory.
pub(crate) fn left_of(
    alloc: Global,
    book: &PlaneBook,
    cell: &Cell,
    taken: Step,
    region: &Region,
) -> Result<Left, AllocError>
    requires cell { IsCellOf book.now cell.now }
    requires taken { IsOnSide book.now cell.now.steps.items taken }
    ensures left { IfOk result (IsLeft book.now cell.now.steps.items taken region.now) }
{
    match crossing_sides(alloc, book, cell, taken, region.sides.as_slice())? {
        None => Ok(Left::Nowhere),
        Some(sides) => {
            if sides.as_slice().is_empty() {
                return Ok(Left::Everywhere);
            }
            Ok(Left::Within(Region { sides }))
        }
    }
}
