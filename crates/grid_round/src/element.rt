ghost use Rattle.std.specs.Prelude.{◌≡◌, ◌≤◌, ◌*◌, map, IfOk};
ghost use Rattle.spec_shape.specs.Shapes.{element_count};
ghost use Rattle.spec_grid.specs.Rounded.{round_items, round_element};
ghost use Rattle.solid_expr.specs.Views.{item_of, element_of};
ghost use Rattle.grid_solid.specs.Bodies.{body_of};
ghost use Rattle.grid_solid.specs.Counts.{body_plane_count};
ghost use Rattle.grid_round.specs.Views.{RoundsItems, RoundsElement};

use crate::bounded::bounded;
use crate::faults::RoundFault;
use crate::solids::round_shape;
use grid_solid::{GridNode, GridSolid};
use solid_expr::{ElementSolid, Item};
use sqlite_items::Items;
use std::alloc::Global;

/// The items on the grid, in their order.
fn round_items(alloc: Global, items: &[Item], step: u32) -> Result<Items<GridNode>, RoundFault>
    requires low { 1 ≤ step }
    requires high { step ≤ 10000 }
    ensures { RoundsItems result (round_items step (map item_of items.now)) }
{
    let mut rounded = Items::new(alloc);
    for item in items {
        rounded.push(round_shape(alloc, &item.solid, step)?)?;
    }
    Ok(rounded)
}

/// The element on the grid.
fn rounded(alloc: Global, element: &ElementSolid, step: u32) -> Result<GridSolid, RoundFault>
    requires low { 1 ≤ step }
    requires high { step ≤ 10000 }
    ensures { RoundsElement result (round_element step (element_of element.now)) }
{
    bounded(&element.items)?;
    let items = round_items(alloc, &element.items, step)?;
    let openings = round_items(alloc, &element.openings, step)?;
    Ok(GridSolid { items, openings })
}

/// The element on a grid with steps of so many micrometres (a rule of this project): each corner is mapped and rounded
/// to whole steps. Items come before openings, first operands before second ones. It has at most four planes for each
/// triangle and half-space that were read.
///
/// # Errors
///
/// The first refusal: `Unbounded` for an item, and then for each primitive and half-space in order `BadDirection`,
/// `CornerTooFar`, `OpenShell` or `PlaneTooLarge`. `NoMemory` at want of memory.
pub fn round_solid(
    alloc: Global,
    element: &ElementSolid,
    step: u32,
) -> Result<GridSolid, RoundFault>
    requires low { 1 ≤ step }
    requires high { step ≤ 10000 }
    ensures value { RoundsElement result (round_element step (element_of element.now)) }
    ensures few { IfOk result (λ s. body_plane_count (body_of s) ≤ 4 * element_count (element_of element.now)) }
{
    rounded(alloc, element, step)
}
