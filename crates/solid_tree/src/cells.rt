ghost use Rattle.grid_solid.specs.Bodies.{body_of};
ghost use Rattle.solid_tree.specs.Cells.{HasOneMeaningInEachCell};

use grid_solid::GridSolid;

/// All points on one side of every plane of an element have one meaning: they are all inside it, or all outside. It is a law;
/// the call does nothing.
pub fn one_meaning_in_each_cell(solid: &GridSolid)
    ensures { HasOneMeaningInEachCell (body_of solid.now) }
{}
