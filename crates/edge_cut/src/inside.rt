ghost use Rattle.std.specs.Prelude.{◌≡◌, ◌<◌, length, filter, not, true, AllPairs, IfOk, OnOk};
ghost use Rattle.poly_frag.specs.Frags.{plane_at};
ghost use Rattle.convex_cycles.specs.Cycles.{IsEdgeOf};
ghost use Rattle.corner_book.specs.Corners.{corners_of, IsMadeWith};
ghost use Rattle.edge_cut.specs.Sides.{step_of};
ghost use Rattle.edge_cut.specs.Outlines.{IsSideOfBook};
ghost use Rattle.edge_cut.specs.Stretches.{comes_before, is_among, IsStretch};
ghost use Rattle.edge_cut.specs.Lines.{AreLines};

use crate::lines::{LineId, Lines};
use crate::sides::Side;
use corner_book::{CornerBook, before_on_line};
use plane_core::{Corner, PlaneBook, PlaneId};
use std::alloc::{AllocError, Global};

/// The corners of a line between two others. The error is want of memory.
fn corners_among(
    alloc: Global,
    line: &[Corner],
    low: &Corner,
    high: &Corner,
) -> Result<Vec<Corner>, AllocError>
    requires { AllPairs (λ c d. comes_before c d ≡ true) line.now }
    ensures { IfOk result (λ among. among.items ≡ filter (is_among low.now high.now) line.now) }
{
    let first = line.partition_point(|c| !before_on_line(low, c));
    let above = &line[first..];
    let count = above.partition_point(|c| before_on_line(c, high));
    Vec::from_slice(alloc, &above[..count])
}

/// The corners of the book inside the edge, in order from its start to its end. The error is want of memory.
pub(crate) fn stretch(
    alloc: Global,
    book: &PlaneBook,
    corners: &CornerBook,
    lines: &mut Lines,
    support: PlaneId,
    edge: &Side,
) -> Result<Vec<Corner>, AllocError>
    requires made { IsMadeWith book.now corners.now }
    requires lines { AreLines book.now (corners_of corners.now) lines.old }
    requires support { support.k < length book.now }
    requires given { IsSideOfBook book.now edge.now }
    requires edge { IsEdgeOf (plane_at book.now support) (step_of book.now edge.now) }
    ensures inside { IfOk result (λ inside. IsStretch book.now (corners_of corners.now) support edge.now inside.items) }
    ensures lines { OnOk result (AreLines book.now (corners_of corners.now) lines.new) }
{
    let id = LineId {
        first: support,
        second: edge.edge.plane,
    };
    lines.add(alloc, book, corners, id)?;
    let line = lines.line(id);
    if before_on_line(&edge.end, &edge.start) {
        let mut inside = corners_among(alloc, line, &edge.end, &edge.start)?;
        inside.reverse();
        return Ok(inside);
    }
    corners_among(alloc, line, &edge.start, &edge.end)
}
