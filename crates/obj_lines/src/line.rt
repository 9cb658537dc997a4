ghost use Rattle.std.specs.Prelude.{IfOk};
ghost use Rattle.obj_lines.specs.Readings.{IsReadingOf};

use crate::indices::indices;
use crate::kinds::{head, shape};
use crate::refusals::refused;
use ix_place::Frame;
use plane_core::Corner;
use spec_refusal::Refusal;
use std::alloc::{AllocError, Global};

/// A line of a page.
#[derive(Debug, Drop)]
pub enum Line {
    /// The first line.
    Version,
    /// The grid in micrometres, from 1 to 10,000.
    Grid(u32),
    /// The head of an element: its number, of at most 18 digits.
    Element(u64),
    /// The world frame of an element.
    Frame(Frame),
    /// An exact corner, which is reduced and within 2^20 grid steps.
    Exact(Corner),
    /// A printed corner in micrometres.
    Printed([i128; 3]),
    /// The plane of a face.
    Face([i128; 4]),
    /// The plane of an edge.
    Edge([i128; 4]),
    /// The numbers of a face's corners over the whole page, from 1.
    Indices(Vec<usize>),
    /// The sixfold volume of an element, if it is within 128 bits.
    Volume(Option<i128>),
    /// The number of an element without a body.
    Skipped(u64),
    /// The number of an element that is refused, and why.
    Refused(u64, Refusal),
    /// The last line.
    End,
}

/// The line with this text, its line feed aside, or `None` exactly where no line within the limits of pages has it
/// (rules of this project).
///
/// # Errors
///
/// Want of memory.
pub fn read_line(alloc: Global, text: &[u8]) -> Result<Option<Line>, AllocError>
    ensures { IfOk result (IsReadingOf text.now) }
{
    if let Some(line) = shape(text) {
        return Ok(Some(line));
    }
    if let Some(line) = head(text) {
        return Ok(Some(line));
    }
    if let Some(line) = refused(text) {
        return Ok(Some(line));
    }
    indices(alloc, text)
}
