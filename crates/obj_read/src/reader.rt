ghost use Rattle.std.specs.Prelude.{◌≡◌, ◌≢◌, ℕ, List, MatchOption, ◌+◌, ◌<◌, ◌^◌, vec_len, map, Some, IfOk};
ghost use Rattle.spec_page.specs.Items.{Item};
ghost use Rattle.plane_core.specs.Views.{point_of};
ghost use Rattle.exact_mesh.specs.Meshes.{numbered_plane};
ghost use Rattle.obj_lines.specs.Readings.{line_of};
ghost use Rattle.obj_read.specs.States.{step, faced, corners_of};
ghost use Rattle.obj_read.specs.States as state;
ghost use Rattle.obj_read.specs.Readers.{items_in, element_in, state_of, state_in};

use crate::parts::{Block, Outline, Page};
use crate::places::places;
use exact_mesh::MeshFace;
use obj_lines::Line;
use plane_core::Corner;
use std::alloc::{AllocError, Global};

/// What was read of a page.
#[derive(Drop)]
pub(crate) enum Reader {
    /// Nothing yet.
    Start,
    /// The first line.
    Headed,
    /// Whole items.
    Among(Page),
    /// Further the number of an element.
    Named(Page, u64),
    /// Further an element so far.
    Open(Page, Block),
    /// Further an exact corner.
    Halved(Page, Block, Corner),
    /// An element so far, and a face of it.
    Faced(Page, Block, Outline),
    /// The whole page.
    Ended(Page),
}

/// The first line is read.
fn take_version(line: Line) -> Option<Reader>
    ensures { state_in result ≡ step state.Start (line_of line) }
{
    match line {
        Line::Version => Some(Reader::Headed),
        _ => None,
    }
}

/// The grid is read.
fn take_grid(alloc: Global, line: Line) -> Option<Reader>
    ensures { state_in result ≡ step state.Headed (line_of line) }
{
    match line {
        Line::Grid(grid) => Some(Reader::Among(Page::new(alloc, grid))),
        _ => None,
    }
}

/// An item is read, or the head of an element, or the last line.
fn take_item(page: Page, line: Line) -> Result<Option<Reader>, AllocError>
    ensures { IfOk result (λ next. state_in next ≡ step (state.Among page.grid (items_in page)) (line_of line)) }
{
    match line {
        Line::Element(number) => Ok(Some(Reader::Named(page, number))),
        Line::Skipped(number) => Ok(Some(Reader::Among(page.with_skipped(number)?))),
        Line::Refused(number, why) => Ok(Some(Reader::Among(page.with_refused(number, why)?))),
        Line::End => Ok(Some(Reader::Ended(page))),
        _ => Ok(None),
    }
}

/// The frame of an element is read.
fn take_frame(alloc: Global, page: Page, number: u64, line: Line) -> Option<Reader>
    ensures { state_in result ≡ step (state.Named page.grid (items_in page) number) (line_of line) }
{
    match line {
        Line::Frame(frame) => Some(Reader::Open(page, Block::new(alloc, number, frame))),
        _ => None,
    }
}

/// The beginning of a corner or of a face is read, or the volume.
fn take_part(
    alloc: Global,
    page: Page,
    block: Block,
    line: Line,
) -> Result<Option<Reader>, AllocError>
    requires { page.before + vec_len block.corners < 2 ^ 64 }
    ensures { IfOk result (λ next. state_in next ≡ step (state.Open page.grid (items_in page) (element_in block)) (line_of line)) }
{
    match line {
        Line::Exact(corner) => {
            if block.faces.is_empty() {
                Ok(Some(Reader::Halved(page, block, corner)))
            } else {
                Ok(None)
            }
        }
        Line::Face(plane) => {
            let edges = Vec::new(alloc);
            Ok(Some(Reader::Faced(page, block, Outline { plane, edges })))
        }
        Line::Volume(six) => Ok(Some(Reader::Among(page.with_element(block, six)?))),
        _ => Ok(None),
    }
}

/// The place of a corner in the world is read.
fn take_place(
    page: Page,
    block: Block,
    corner: Corner,
    line: Line,
) -> Result<Option<Reader>, AllocError>
    ensures { IfOk result (λ next. state_in next ≡ step (state.Halved page.grid (items_in page) (element_in block) (point_of corner)) (line_of line)) }
{
    match line {
        Line::Printed(place) => Ok(Some(Reader::Open(page, block.with_corner(corner, place)?))),
        _ => Ok(None),
    }
}

/// The corners of a face are read.
fn close_face(
    page: Page,
    block: Block,
    outline: Outline,
    indices: Vec<usize>,
) -> Result<Option<Reader>, AllocError>
    requires { page.before + vec_len block.corners < 2 ^ 64 }
    ensures { IfOk result (λ next. state_in next ≡ faced page.grid (items_in page) (element_in block)
        (numbered_plane outline.plane) (map numbered_plane outline.edges.items) indices.items) }
{
    let Outline { plane, edges } = outline;
    match places(page.before, block.corners.len(), edges.len(), indices) {
        None => Ok(None),
        Some(corners) => {
            let face = MeshFace {
                plane,
                edges,
                corners,
            };
            Ok(Some(Reader::Open(page, block.with_face(face)?)))
        }
    }
}

/// An edge of a face is read, or its corners.
fn take_edge(
    page: Page,
    block: Block,
    outline: Outline,
    line: Line,
) -> Result<Option<Reader>, AllocError>
    requires { page.before + vec_len block.corners < 2 ^ 64 }
    ensures { IfOk result (λ next. state_in next ≡ step (state.Faced page.grid (items_in page) (element_in block)
        (numbered_plane outline.plane) (map numbered_plane outline.edges.items)) (line_of line)) }
{
    match line {
        Line::Edge(edge) => Ok(Some(Reader::Faced(page, block, outline.with_edge(edge)?))),
        Line::Indices(indices) => close_face(page, block, outline, indices),
        _ => Ok(None),
    }
}

impl Reader {
    /// What is read with one line more, or `None` where the line may not follow.
    pub(crate) fn take(self, alloc: Global, line: Line) -> Result<Option<Reader>, AllocError>
        requires { corners_of (state_of self) < 2 ^ 64 }
        ensures { IfOk result (λ next. state_in next ≡ step (state_of self) (line_of line)) }
    {
        match self {
            Reader::Start => Ok(take_version(line)),
            Reader::Headed => Ok(take_grid(alloc, line)),
            Reader::Among(page) => take_item(page, line),
            Reader::Named(page, number) => Ok(take_frame(alloc, page, number, line)),
            Reader::Open(page, block) => take_part(alloc, page, block, line),
            Reader::Halved(page, block, corner) => take_place(page, block, corner, line),
            Reader::Faced(page, block, outline) => take_edge(page, block, outline, line),
            Reader::Ended(_) => Ok(None),
        }
    }

    /// The page, if all of it is read.
    pub(crate) fn into_page(self) -> Option<Page>
        ensures { MatchOption result ((grid : ℕ) (items : List Item) → state_of self ≢ state.Ended grid items)
            (λ page. state_of self ≡ state.Ended page.grid (items_in page)) }
    {
        match self {
            Reader::Ended(page) => Some(page),
            _ => None,
        }
    }
}
