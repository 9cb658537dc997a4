ghost use Rattle.std.specs.Prelude.{ℤ, Some, None, MatchOption};
ghost use Rattle.obj_lines.specs.PageLines as page;
ghost use Rattle.obj_lines.specs.Readings.{IsReadingAs, IsLineOf, IsNoShape, IsNoHead, line_of};

use crate::limits::{corner, frame, grid, is_plane, is_within, short, transform_of, vector};
use crate::line::Line;
use crate::template::scan;

/// The first line.
fn version(text: &[u8]) -> Option<Line>
    ensures { IsReadingAs (λ (u : Unit {0}). page.Version) text.now result }
{
    scan::<0>(text, b"# ifcexact 1")?;
    Some(Line::Version)
}

/// The line of the grid.
fn grid_line(text: &[u8]) -> Option<Line>
    ensures { IsReadingAs page.Grid text.now result }
{
    let found = scan::<1>(text, b"# grid @")?;
    let grid = grid(found[0])?;
    Some(Line::Grid(grid))
}

/// The head of an element.
fn element(text: &[u8]) -> Option<Line>
    ensures { IsReadingAs page.Element text.now result }
{
    let found = scan::<1>(text, b"o @")?;
    let number = short(found[0])?;
    Some(Line::Element(number))
}

/// The frame of an element.
fn frame_line(text: &[u8]) -> Option<Line>
    ensures { IsReadingAs page.Frame text.now result }
{
    let found = scan::<12>(text, b"#frame @ @ @ @ @ @ @ @ @ @ @ @")?;
    let frame = frame(transform_of(&found))?;
    Some(Line::Frame(frame))
}

/// An exact corner.
fn exact(text: &[u8]) -> Option<Line>
    ensures { IsReadingAs page.Exact text.now result }
{
    let found = scan::<4>(text, b"#c @ @ @ @")?;
    let corner = corner(found[0], found[1], found[2], found[3])?;
    Some(Line::Exact(corner))
}

/// A printed corner.
fn printed(text: &[u8]) -> Option<Line>
    ensures { IsReadingAs page.Printed text.now result }
{
    let found = scan::<3>(text, b"v ~ ~ ~")?;
    if !is_within(100_000_000_000_000, &vector(found[0], found[1], found[2])) {
        return None;
    }
    Some(Line::Printed(found))
}

/// The plane of a face.
fn face(text: &[u8]) -> Option<Line>
    ensures { IsReadingAs page.Face text.now result }
{
    let found = scan::<4>(text, b"#p @ @ @ @")?;
    if !is_plane(found[0], found[1], found[2], found[3]) {
        return None;
    }
    Some(Line::Face(found))
}

/// The plane of an edge.
fn edge(text: &[u8]) -> Option<Line>
    ensures { IsReadingAs page.Edge text.now result }
{
    let found = scan::<4>(text, b"#e @ @ @ @")?;
    if !is_plane(found[0], found[1], found[2], found[3]) {
        return None;
    }
    Some(Line::Edge(found))
}

/// The line of a volume that passes 128 bits.
fn no_volume(text: &[u8]) -> Option<Line>
    ensures { IsReadingAs (λ (u : Unit {0}). page.Volume None) text.now result }
{
    scan::<0>(text, b"#vol6 none")?;
    Some(Line::Volume(None))
}

/// The line of a volume within 128 bits.
fn some_volume(text: &[u8]) -> Option<Line>
    ensures { IsReadingAs (λ (six : ℤ). page.Volume (Some six)) text.now result }
{
    let found = scan::<1>(text, b"#vol6 @")?;
    Some(Line::Volume(Some(found[0])))
}

/// The volume of an element.
fn volume(text: &[u8]) -> Option<Line>
    ensures { IsReadingAs page.Volume text.now result }
{
    match no_volume(text) {
        Some(line) => Some(line),
        None => some_volume(text),
    }
}

/// An element without a body.
fn skipped(text: &[u8]) -> Option<Line>
    ensures { IsReadingAs page.Skipped text.now result }
{
    let found = scan::<1>(text, b"#skipped @")?;
    let number = short(found[0])?;
    Some(Line::Skipped(number))
}

/// The last line.
fn end(text: &[u8]) -> Option<Line>
    ensures { IsReadingAs (λ (u : Unit {0}). page.End) text.now result }
{
    scan::<0>(text, b"# end")?;
    Some(Line::End)
}

/// A line of a corner, a face or a volume.
pub(crate) fn shape(text: &[u8]) -> Option<Line>
    ensures { MatchOption result (IsNoShape text.now) (λ line. IsLineOf text.now (line_of line)) }
{
    if let Some(line) = exact(text) {
        return Some(line);
    }
    if let Some(line) = printed(text) {
        return Some(line);
    }
    if let Some(line) = edge(text) {
        return Some(line);
    }
    if let Some(line) = face(text) {
        return Some(line);
    }
    volume(text)
}

/// A line of an element but for its shape, or the first, the second or the last line of a page.
pub(crate) fn head(text: &[u8]) -> Option<Line>
    ensures { MatchOption result (IsNoHead text.now) (λ line. IsLineOf text.now (line_of line)) }
{
    if let Some(line) = element(text) {
        return Some(line);
    }
    if let Some(line) = frame_line(text) {
        return Some(line);
    }
    if let Some(line) = skipped(text) {
        return Some(line);
    }
    if let Some(line) = version(text) {
        return Some(line);
    }
    if let Some(line) = grid_line(text) {
        return Some(line);
    }
    end(text)
}
