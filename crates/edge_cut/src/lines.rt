ghost use Rattle.std.specs.Prelude.{◌≡◌, ◌<◌, is_some, true, List, length, filter, IfOk, OnOk};
ghost use Rattle.std.specs.Ordering.{is_lt};
ghost use Rattle.indexmap.specs.IndexMap.{get};
ghost use Rattle.plane_core.specs.declared.numbers.Plane.{Plane};
ghost use Rattle.plane_core.specs.declared.numbers.Corner.{Corner};
ghost use Rattle.corner_book.specs.Corners.{corners_of, IsMadeWith};
ghost use Rattle.edge_cut.specs.Stretches.{comes_before, lies_on_both};
ghost use Rattle.edge_cut.specs.Lines.{line_eq, IsLineOf, AreLines};

use corner_book::{CornerBook, before_on_line};
use indexmap::IndexMap;
use plane_core::{Corner, PlaneBook, PlaneId};
use std::alloc::{AllocError, Global};
use std::cmp::Ordering;

/// The line of two planes of a book.
#[derive(Clone, Copy, PartialEq, Eq, Hash)]
pub(crate) struct LineId {
    pub first: PlaneId,
    pub second: PlaneId,
}

/// The corners on lines, in order along each, of the lines that were asked for so far.
#[derive(Drop)]
pub(crate) struct Lines {
    lines: IndexMap<LineId, Vec<Corner>>,
}

/// The order of corners along a line.
fn order_on_line(c: &Corner, d: &Corner) -> Ordering
    ensures { is_lt result ≡ comes_before c.now d.now }
{
    if before_on_line(c, d) {
        Ordering::Less
    } else if before_on_line(d, c) {
        Ordering::Greater
    } else {
        Ordering::Equal
    }
}

/// The corners of the book on the line, by their places. The error is want of memory.
fn corners_on(
    alloc: Global,
    book: &PlaneBook,
    corners: &CornerBook,
    id: LineId,
) -> Result<Vec<Corner>, AllocError>
    requires made { IsMadeWith book.now corners.now }
    requires first { id.first.k < length book.now }
    requires second { id.second.k < length book.now }
    ensures { IfOk result (λ on. on.items ≡ filter (lies_on_both book.now id.first id.second) (corners_of corners.now)) }
{
    let mut on = Vec::new(alloc);
    let places = corners.on_line(alloc, book, id.first, id.second)?;
    for place in &places {
        let corner = corners.corner(*place);
        on.push(*corner)?;
    }
    Ok(on)
}

/// The corners of the book on the line, in order along it. The error is want of memory.
fn line_of(
    alloc: Global,
    book: &PlaneBook,
    corners: &CornerBook,
    id: LineId,
) -> Result<Vec<Corner>, AllocError>
    requires made { IsMadeWith book.now corners.now }
    requires first { id.first.k < length book.now }
    requires second { id.second.k < length book.now }
    ensures { IfOk result (λ line. IsLineOf book.now (corners_of corners.now) id line.items) }
{
    let _count = corners.count();
    let mut line = corners_on(alloc, book, corners, id)?;
    line.sort_by(order_on_line)?;
    Ok(line)
}

impl Lines {
    /// No line. It takes no memory.
    pub(crate) fn new(alloc: Global) -> Lines
        // Of any corners.
        ensures { (planes : List Plane) (cs : List Corner) → AreLines planes cs result }
    {
        Lines {
            lines: IndexMap::new(alloc),
        }
    }

    /// Adds the line of the corners of the book, if it is not there. The error is want of memory.
    pub(crate) fn add(
        &mut self,
        alloc: Global,
        book: &PlaneBook,
        corners: &CornerBook,
        id: LineId,
    ) -> Result<(), AllocError>
        requires made { IsMadeWith book.now corners.now }
        requires first { id.first.k < length book.now }
        requires second { id.second.k < length book.now }
        requires lines { AreLines book.now (corners_of corners.now) self.old }
        ensures lines { OnOk result (AreLines book.now (corners_of corners.now) self.new) }
        ensures there { OnOk result (is_some (get line_eq self.new.lines id) ≡ true) }
    {
        if self.lines.contains_key(&id) {
            return Ok(());
        }
        let line = line_of(alloc, book, corners, id)?;
        match self.lines.insert(id, line) {
            Ok(_) => Ok(()),
            Err(_) => Err(AllocError),
        }
    }

    /// The corners on the line, in order along it.
    pub(crate) fn line(&self, id: LineId) -> &[Corner]
        requires { is_some (get line_eq self.now.lines id) ≡ true }
        ensures { (planes : List Plane) (cs : List Corner) → AreLines planes cs self.now → IsLineOf planes cs id result.now }
    {
        match self.lines.get(&id) {
            Some(line) => line.as_slice(),
            None => unreachable!(),
        }
    }
}
