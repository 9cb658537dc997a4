ghost use Rattle.std.specs.Prelude.{◌≡◌, ◌<◌, ◌++◌, ◌∷◌, [], length, map, IfOk, OnOk};
ghost use Rattle.poly_frag.specs.Frags.{plane_at};
ghost use Rattle.convex_cycles.specs.Cycles.{IsEdgeOf};
ghost use Rattle.corner_book.specs.Corners.{corners_of, IsMadeWith};
ghost use Rattle.edge_cut.specs.Sides.{step_of};
ghost use Rattle.edge_cut.specs.Outlines.{IsSideOfBook, IsOfBook};
ghost use Rattle.edge_cut.specs.Lines.{AreLines};
ghost use Rattle.edge_cut.specs.Rounds.{HasCut, IsRoundOf};

use crate::inside::stretch;
use crate::lines::Lines;
use crate::sides::{Outline, Side};
use corner_book::CornerBook;
use plane_core::{Corner, PlaneBook, PlaneId};
use poly_frag::Edge;
use std::alloc::{AllocError, Global};

/// The boundary of a piece, cut at every corner on it: the corners in order, and for each the edge that it begins.
#[derive(Drop)]
pub(crate) struct Round {
    pub edges: Vec<Edge>,
    pub corners: Vec<Corner>,
}

impl Round {
    /// Adds one part of an edge.
    fn push(&mut self, edge: Edge, corner: Corner) -> Result<(), AllocError>
        ensures edges { OnOk result (self.new.edges.items ≡ self.old.edges.items ++ edge ∷ []) }
        ensures corners { OnOk result (self.new.corners.items ≡ self.old.corners.items ++ corner ∷ []) }
    {
        self.edges.push(edge)?;
        self.corners.push(corner)?;
        Ok(())
    }

    /// Adds the parts of an edge that begin at corners inside it.
    fn push_all(&mut self, edge: Edge, inside: &[Corner]) -> Result<(), AllocError>
        ensures edges { OnOk result (self.new.edges.items ≡ self.old.edges.items ++ map (λ c. edge) inside.now) }
        ensures corners { OnOk result (self.new.corners.items ≡ self.old.corners.items ++ inside.now) }
    {
        for corner in inside {
            self.push(edge, *corner)?;
        }
        Ok(())
    }

    /// Adds an edge of the piece, cut at the corners inside it. The error is want of memory.
    fn add(
        &mut self,
        alloc: Global,
        book: &PlaneBook,
        corners: &CornerBook,
        lines: &mut Lines,
        support: PlaneId,
        side: &Side,
    ) -> Result<(), AllocError>
        requires made { IsMadeWith book.now corners.now }
        requires lines { AreLines book.now (corners_of corners.now) lines.old }
        requires support { support.k < length book.now }
        requires given { IsSideOfBook book.now side.now }
        requires edge { IsEdgeOf (plane_at book.now support) (step_of book.now side.now) }
        ensures cut { OnOk result (HasCut book.now (corners_of corners.now) support side.now self.old self.new) }
        ensures lines { OnOk result (AreLines book.now (corners_of corners.now) lines.new) }
    {
        let inside = stretch(alloc, book, corners, lines, support, side)?;
        self.push(side.edge, side.start)?;
        self.push_all(side.edge, &inside)?;
        Ok(())
    }
}

/// The boundary of the piece, cut at every corner of the book on it. The error is want of memory.
pub(crate) fn cut_round(
    alloc: Global,
    book: &PlaneBook,
    corners: &CornerBook,
    lines: &mut Lines,
    outline: &Outline,
) -> Result<Round, AllocError>
    requires made { IsMadeWith book.now corners.now }
    requires lines { AreLines book.now (corners_of corners.now) lines.old }
    requires given { IsOfBook book.now outline.now }
    ensures round { IfOk result (IsRoundOf book.now (corners_of corners.now) outline.now) }
    ensures lines { OnOk result (AreLines book.now (corners_of corners.now) lines.new) }
{
    let mut round = Round {
        edges: Vec::new(alloc),
        corners: Vec::new(alloc),
    };
    for side in &outline.sides {
        round.add(alloc, book, corners, lines, outline.support, side)?;
    }
    Ok(round)
}
