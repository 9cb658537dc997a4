ghost use Rattle.std.specs.Prelude.{◌≤◌, map, Ok};
ghost use Rattle.spec_solid.specs.Solids.{Combined};
ghost use Rattle.spec_shape.specs.Shapes.{Faces, Half, united};
ghost use Rattle.spec_grid.specs.Rounded.{round_shape};
ghost use Rattle.solid_expr.specs.Views.{shape_of};
ghost use Rattle.grid_solid.specs.Views as grid;
ghost use Rattle.grid_round.specs.Views.{RoundsShape, RoundsParts};

use crate::faults::RoundFault;
use crate::halves::round_half;
use crate::shells::round_shell;
use grid_solid::GridNode;
use ix_place::Map;
use solid_expr::{Face, Solid};
use spec_solid::BoolOp;
use sqlite_items::{Boxed, Items};
use std::alloc::Global;

/// What an operator makes of two solids.
fn combined(
    alloc: Global,
    operator: BoolOp,
    first: GridNode,
    second: GridNode,
) -> Result<GridNode, RoundFault>
    ensures { RoundsShape result (Ok (Combined operator (grid.solid_of first) (grid.solid_of second))) }
{
    let first = Boxed::new(alloc, first)?;
    Ok(GridNode::Combined {
        operator,
        first,
        second: Boxed::new(alloc, second)?,
    })
}

/// A primitive on the grid.
fn primitive(
    alloc: Global,
    at: u64,
    under: &Map,
    step: u32,
    faces: &[Face],
) -> Result<GridNode, RoundFault>
    requires low { 1 ≤ step }
    requires high { step ≤ 10000 }
    ensures { RoundsShape result (round_shape step (Faces at under.now faces.now)) }
{
    Ok(GridNode::Shell(round_shell(alloc, at, under, step, faces)?))
}

/// A half-space on the grid.
fn half_space(at: u64, under: &Map, step: u32, agreement: bool) -> Result<GridNode, RoundFault>
    requires low { 1 ≤ step }
    requires high { step ≤ 10000 }
    ensures { RoundsShape result (round_shape step (Half at under.now agreement)) }
{
    Ok(round_half(at, under, step, agreement)?)
}

/// A solid on the grid: first operands come before second ones.
#[cycle(rounding)]
pub fn round_shape(alloc: Global, solid: &Solid, step: u32) -> Result<GridNode, RoundFault>
    requires low { 1 ≤ step }
    requires high { step ≤ 10000 }
    ensures { RoundsShape result (round_shape step (shape_of solid.now)) }
{
    match solid {
        Solid::Faces { at, map, faces } => primitive(alloc, *at, map, step, faces),
        Solid::Half { at, map, agreement } => half_space(*at, map, step, *agreement),
        Solid::Combined {
            operator,
            first,
            second,
            ..
        } => {
            let first = round_shape(alloc, first.get(), step)?;
            let second = round_shape(alloc, second.get(), step)?;
            combined(alloc, *operator, first, second)
        }
        Solid::Union { parts, .. } => Ok(GridNode::Union {
            parts: round_parts(alloc, parts.as_slice(), step)?,
        }),
    }
}

/// The parts of a union on the grid, in their order.
#[cycle(rounding)]
fn round_parts(alloc: Global, parts: &[Solid], step: u32) -> Result<Items<GridNode>, RoundFault>
    requires low { 1 ≤ step }
    requires high { step ≤ 10000 }
    ensures { RoundsParts result (round_shape step (united (map shape_of parts.now))) }
{
    let mut rounded = Items::new(alloc);
    for part in parts {
        rounded.push(round_shape(alloc, part, step)?)?;
    }
    Ok(rounded)
}
