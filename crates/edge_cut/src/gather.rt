ghost use Rattle.std.specs.Prelude.{All, IfOk, OnOk, map};
ghost use Rattle.std.specs.List.{flat_map};
ghost use Rattle.corner_book.specs.Corners.{corners_of, IsMadeWith};
ghost use Rattle.edge_cut.specs.Outlines.{starts_of, IsOfBook, HasAdded, HasCorners};

use crate::sides::Outline;
use corner_book::CornerBook;
use plane_core::PlaneBook;
use std::alloc::{AllocError, Global};

/// Adds the corners of the piece, each with the planes of the piece, of the edge before it and of its edge. The error is
/// want of memory.
fn add_corners(
    book: &PlaneBook,
    outline: &Outline,
    corners: &mut CornerBook,
) -> Result<(), AllocError>
    requires made { IsMadeWith book.now corners.old }
    requires given { IsOfBook book.now outline.now }
    ensures made { IsMadeWith book.now corners.new }
    ensures added { OnOk result (HasAdded (corners_of corners.old) (starts_of outline.now) (corners_of corners.new)) }
{
    for side in &outline.sides {
        let planes = [outline.support, side.before.plane, side.edge.plane];
        corners.add(book, side.start, planes)?;
    }
    Ok(())
}

/// The corners of all pieces, each once. The error is want of memory.
pub(crate) fn gather(
    alloc: Global,
    book: &PlaneBook,
    outlines: &[Outline],
) -> Result<CornerBook, AllocError>
    requires given { All (IsOfBook book.now) outlines.now }
    ensures made { IfOk result (IsMadeWith book.now) }
    ensures corners { IfOk result (λ corners. HasCorners (flat_map starts_of outlines.now) (corners_of corners)) }
{
    let mut corners = CornerBook::new(alloc);
    for outline in outlines {
        add_corners(book, outline, &mut corners)?;
    }
    Ok(corners)
}
