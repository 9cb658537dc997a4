ghost use Rattle.std.specs.Prelude.{◌≡◌, ◌<◌, [], length, Contains, IfSome, IfNone};
ghost use Rattle.plane_cells.specs.Cells.{IsCellOf, IsCutOf};
ghost use Rattle.plane_cells.specs.declared.steps.Cut.TheVariants.{Crosses};
ghost use Rattle.poly_frag.specs.Frags.{plane_at};
ghost use Rattle.parity_trees.specs.Regions.{all_sides};
ghost use Rattle.parity_trees.specs.Works.{IsOnSide, IsDecided};

use crate::regions::Region;
use plane_cells::{Cell, Cut, Step};
use plane_core::{PlaneBook, PlaneId};

/// Where the points of a cell lie at a plane. A plane that the book does not have counts as one behind which none lies.
pub(crate) fn side_of(book: &PlaneBook, cell: &Cell, plane: PlaneId) -> Cut
    requires cell { IsCellOf book.now cell.now }
    ensures answer { IsCutOf book.now cell.now.steps.items (plane_at book.now plane) result }
    ensures given { result ≡ Crosses → plane.k < length book.now }
{
    if plane.k as usize >= book.count() {
        return Cut::FrontOnly;
    }
    cell.side_of(book, plane)
}

/// Whether all points of a cell lie on a side, or none does: `None` where some do and some do not. The cell lies on the
/// side of the step that was taken.
pub(crate) fn decided(book: &PlaneBook, cell: &Cell, taken: Step, side: Step) -> Option<bool>
    requires cell { IsCellOf book.now cell.now }
    requires taken { IsOnSide book.now cell.now.steps.items taken }
    ensures decided { IfSome result (IsDecided book.now cell.now.steps.items side) }
    ensures crossing { IfNone result (side.plane.k ≡ taken.plane.k → ⊥) }
{
    if side.plane == taken.plane {
        return Some(side.in_front == taken.in_front);
    }
    match side_of(book, cell, side.plane) {
        Cut::Crosses => None,
        Cut::FrontOnly => Some(side.in_front),
        Cut::BackOnly => Some(!side.in_front),
    }
}

/// The first side of the first region; `None` exactly where there is no region.
pub(crate) fn first_side(regions: &[Region]) -> Option<Step>
    ensures none { IfNone result (regions.now ≡ []) }
    ensures first { IfSome result (λ s. Contains (all_sides regions.now) s) }
{
    match regions.first() {
        None => None,
        Some(region) => match region.sides.as_slice().first() {
            Some(side) => Some(*side),
            None => unreachable!(),
        },
    }
}
