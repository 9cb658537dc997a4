ghost use Rattle.std.specs.Prelude.{◌≡◌, ◌<◌, Some, length, slice_get, All, IfOk};
ghost use Rattle.std.specs.List.{AllZip};
ghost use Rattle.spec_page.specs.Faces.{rotated};
ghost use Rattle.poly_frag.specs.Cycles.{IsCycle};
ghost use Rattle.edge_cut.specs.Sides.{AreSides, AreJoined};
ghost use Rattle.edge_cut.specs.Outlines.{IsOutlineOf};

use crate::sides::{Outline, Side};
use face_walk::OutFace;
use plane_core::{Corner, PlaneBook};
use poly_frag::{Edge, Frag, corners};
use std::alloc::{AllocError, Global};

/// For each corner the one after it, and for the last one the first. The error is want of memory.
fn next_corners(alloc: Global, corners: &[Corner]) -> Result<Vec<Corner>, AllocError>
    ensures { IfOk result (λ next. next.items ≡ rotated corners.now) }
{
    let [first, rest @ ..] = corners else {
        return Ok(Vec::new(alloc));
    };
    let mut next = Vec::from_slice(alloc, rest)?;
    next.push(*first)?;
    Ok(next)
}

/// For each edge the one after it, and for the last one the first. The error is want of memory.
fn next_edges(alloc: Global, edges: &[Edge]) -> Result<Vec<Edge>, AllocError>
    ensures { IfOk result (λ next. next.items ≡ rotated edges.now) }
{
    let [first, rest @ ..] = edges else {
        return Ok(Vec::new(alloc));
    };
    let mut next = Vec::from_slice(alloc, rest)?;
    next.push(*first)?;
    Ok(next)
}

/// For each edge the one before it, and for the first one the last. The error is want of memory.
fn edges_before(alloc: Global, edges: &[Edge]) -> Result<Vec<Edge>, AllocError>
    ensures { IfOk result (λ before. rotated before.items ≡ edges.now) }
{
    let mut before = Vec::new(alloc);
    if let [rest @ .., last] = edges {
        before.push(*last)?;
        before.extend_from_slice(rest)?;
    }
    Ok(before)
}

/// The edge at a place, by lists of its parts.
fn side_at(
    before: &[Edge],
    edges: &[Edge],
    after: &[Edge],
    starts: &[Corner],
    ends: &[Corner],
    i: usize,
) -> Side
    requires before { i < length before.now }
    requires edges { i < length edges.now }
    requires after { i < length after.now }
    requires starts { i < length starts.now }
    requires ends { i < length ends.now }
    ensures before { slice_get before.now i ≡ Some result.before }
    ensures edge { slice_get edges.now i ≡ Some result.edge }
    ensures after { slice_get after.now i ≡ Some result.after }
    ensures start { slice_get starts.now i ≡ Some result.start }
    ensures end { slice_get ends.now i ≡ Some result.end }
{
    Side {
        before: before[i],
        edge: edges[i],
        after: after[i],
        start: starts[i],
        end: ends[i],
    }
}

/// The edges, by lists of their parts, which are equally long. The error is want of memory.
fn joined_sides(
    alloc: Global,
    before: &[Edge],
    edges: &[Edge],
    after: &[Edge],
    starts: &[Corner],
    ends: &[Corner],
) -> Result<Vec<Side>, AllocError>
    requires before { length before.now ≡ length edges.now }
    requires after { length after.now ≡ length edges.now }
    requires starts { length starts.now ≡ length edges.now }
    requires ends { length ends.now ≡ length edges.now }
    ensures { IfOk result (λ sides. AreJoined sides.items before.now edges.now after.now starts.now ends.now) }
{
    let mut sides = Vec::new(alloc);
    for i in 0..edges.len() {
        sides.push(side_at(before, edges, after, starts, ends, i))?;
    }
    Ok(sides)
}

/// The edges of the piece. The error is want of memory.
fn sides_of(alloc: Global, book: &PlaneBook, frag: &Frag) -> Result<Vec<Side>, AllocError>
    requires cycle { IsCycle book.now frag.now }
    ensures { IfOk result (λ sides. AreSides book.now frag.now sides.items) }
{
    let edges = frag.edges.as_slice();
    let starts = corners(alloc, book, frag)?;
    let ends = next_corners(alloc, &starts)?;
    let before = edges_before(alloc, edges)?;
    let after = next_edges(alloc, edges)?;
    joined_sides(alloc, &before, edges, &after, &starts, &ends)
}

/// The outlines of the pieces, in order. The error is want of memory.
pub(crate) fn outlines(
    alloc: Global,
    book: &PlaneBook,
    faces: &[OutFace],
) -> Result<Vec<Outline>, AllocError>
    requires cycles { All (λ o. IsCycle book.now o.frag) faces.now }
    ensures { IfOk result (λ outlines. AllZip (IsOutlineOf book.now) faces.now outlines.items) }
{
    let mut outlines = Vec::new(alloc);
    for face in faces {
        outlines.push(Outline {
            support: face.frag.support,
            front_out: face.front_out,
            sides: sides_of(alloc, book, &face.frag)?,
        })?;
    }
    Ok(outlines)
}
