ghost use Rattle.std.specs.Prelude.{All, map};
ghost use Rattle.grid_solid.specs.Bounds.{IsBounded};
ghost use Rattle.grid_solid.specs.Views.{solid_of};

use crate::nodes::GridNode;
use sqlite_items::Items;

/// An element on the grid: its items, of which each is bounded, and the items of its openings.
#[derive(Drop)]
pub struct GridSolid {
    pub items: Items<GridNode>,
    pub openings: Items<GridNode>,
    pub ghost bounded: { All IsBounded (map solid_of items) },
}
