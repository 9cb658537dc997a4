ghost use Rattle.std.specs.Prelude.{IfOk, OnOk};
ghost use Rattle.plane_cells.specs.Cells.{IsCellOf};
ghost use Rattle.parity_trees.specs.Works.{IsOnSide, IsAdded, IsLeftOf, sum_of};

use crate::crossing::left_of;
use crate::regions::Region;
use crate::work::{Count, Left};
use plane_cells::{Cell, Step};
use plane_core::PlaneBook;
use std::alloc::{AllocError, Global};

/// Counts what a cell leaves of a region. The error is want of memory.
fn add_left(
    alloc: Global,
    book: &PlaneBook,
    cell: &Cell,
    taken: Step,
    region: &Region,
    count: &mut Count,
) -> Result<(), AllocError>
    requires cell { IsCellOf book.now cell.now }
    requires taken { IsOnSide book.now cell.now.steps.items taken }
    ensures added { OnOk result (IsAdded book.now cell.now.steps.items taken region.now (sum_of count.old) (sum_of count.new)) }
{
    match left_of(alloc, book, cell, taken, region)? {
        Left::Nowhere => Ok(()),
        Left::Everywhere => {
            count.odd = !count.odd;
            Ok(())
        }
        Left::Within(region) => {
            count.regions.push(region)?;
            Ok(())
        }
    }
}

/// The same count in a cell, which lies on the side of the step that was taken: by what the cell leaves of the regions. No
/// side of the plane of that step is left. The error is want of memory.
pub(crate) fn left_in(
    alloc: Global,
    book: &PlaneBook,
    cell: &Cell,
    taken: Step,
    count: &Count,
) -> Result<Count, AllocError>
    requires cell { IsCellOf book.now cell.now }
    requires taken { IsOnSide book.now cell.now.steps.items taken }
    ensures left { IfOk result (λ left. IsLeftOf book.now cell.now.steps.items taken (sum_of count.now) (sum_of left)) }
{
    let mut left = Count {
        regions: Vec::new(alloc),
        odd: count.odd,
    };
    for region in &count.regions {
        add_left(alloc, book, cell, taken, region, &mut left)?;
    }
    Ok(left)
}
