ghost use Rattle.std.specs.Prelude.{◌∷◌, MatchOption, IfOk};
ghost use Rattle.std.specs.Fmt.{decimal};
ghost use Rattle.obj_lines.specs.PageLines as page;
ghost use Rattle.obj_lines.specs.Templates.{IsFrontOf, HasNoFront, IsIndex, spaced_index, AreIndicesOf, IsNoIndices};
ghost use Rattle.obj_lines.specs.Readings.{IsReadingAs};

use crate::line::Line;
use crate::numbers::size;
use crate::template::behind;
use std::alloc::{AllocError, Global};

/// The number behind the space at the front of a text, and what is behind it.
fn index(text: &[u8]) -> Option<(usize, &[u8])>
    ensures { MatchOption result (HasNoFront spaced_index IsIndex text.now) (λ found. IsFrontOf spaced_index IsIndex text.now found.0 found.1.now) }
{
    let [b' ', digits @ ..] = text else {
        return None;
    };
    let (number, rest) = size(digits)?;
    if number > usize::MAX as u128 {
        return None;
    }
    Some((number as usize, rest))
}

/// The numbers that a text is of, each behind a space.
fn numbers_of(alloc: Global, text: &[u8]) -> Result<Option<Vec<usize>>, AllocError>
    ensures { IfOk result (λ read. MatchOption read (IsNoIndices text.now) (λ numbers. AreIndicesOf text.now numbers.items)) }
{
    let mut numbers = Vec::new(alloc);
    let mut rest = text;
    while !rest.is_empty() {
        match index(rest) {
            Some((number, more)) => {
                numbers.push(number)?;
                rest = more;
            }
            None => return Ok(None),
        }
    }
    Ok(Some(numbers))
}

/// The numbers of a face's corners.
pub(crate) fn indices(alloc: Global, text: &[u8]) -> Result<Option<Line>, AllocError>
    ensures { IfOk result (IsReadingAs page.Indices text.now) }
{
    match behind(b'f', text) {
        Some(numbers) => match numbers_of(alloc, numbers)? {
            Some(numbers) => Ok(Some(Line::Indices(numbers))),
            None => Ok(None),
        },
        None => Ok(None),
    }
}
