ghost use Rattle.std.specs.Prelude.{◌≡◌, ◌≤◌, ◌^◌, ◌∷◌, ◌++◌, [], drop, OnOk};
ghost use Rattle.spec_entity.specs.Reads.{each};
ghost use Rattle.spec_geometry.specs.Curves.{index_in, index, line_index, first_index, last_index, joined, segment_named, segment, segments_after};
ghost use Rattle.ifc_numbers.specs.Answers.{ReadsList};
ghost use Rattle.ifc_curves.specs.Segments.{index_of};

use entity_reader::refusal_of;
use ifc_numbers::ItemFault;
use ix_num::Decimal;
use spec_refusal::Refusal;
use spec_step::Param;
use std::alloc::{AllocError, Global};
use step_table::{Table, innermost, param_list};
use step_text::bytes_at;

/// 1, for what is counted in units of 10^-12.
const ONE: i128 = 1_000_000_000_000;

/// The greatest number of a file.
const MOST: usize = 1_000_000_000;

/// The whole number that so many units of 10^-12 are, from 1 to a count and at most 10^9.
fn index_of(at: u64, count: usize, units: i128) -> Result<usize, Refusal>
    ensures { result ≡ index_of at count units }
{
    if units < ONE {
        return Err(Refusal::BadAttribute { at, position: 2 });
    }
    if units > count.min(MOST) as i128 * ONE {
        return Err(Refusal::BadAttribute { at, position: 2 });
    }
    Ok((units.unsigned_abs() / 1_000_000_000_000) as usize)
}

/// The whole number that a decimal text is, from 1 to a count and at most 10^9.
fn index_in(at: u64, count: usize, text: &[u8]) -> Result<usize, Refusal>
    ensures { result ≡ index_in at count text.now }
{
    match Decimal::read(text) {
        Ok(units) => index_of(at, count, units),
        Err(_) => Err(Refusal::BadAttribute { at, position: 2 }),
    }
}

/// An index of a segment, counted from 1.
fn index(table: &Table<'_>, at: u64, count: usize, p: &Param) -> Result<usize, Refusal>
    ensures { result ≡ index table.now at count p.now }
{
    match innermost(p) {
        Param::Int(span) => index_in(at, count, bytes_at(table.source(), *span)),
        _ => Err(Refusal::BadAttribute { at, position: 2 }),
    }
}

/// The indices of a list.
fn indices(
    alloc: Global,
    table: &Table<'_>,
    at: u64,
    count: usize,
    members: &[Param],
) -> Result<Vec<usize>, ItemFault>
    ensures { ReadsList result (each (index table.now at count) members.now) }
{
    let mut indices = Vec::new(alloc);
    for p in members {
        push(&mut indices, index(table, at, count, p)?)?;
    }
    Ok(indices)
}

fn push(indices: &mut Vec<usize>, index: usize) -> Result<(), AllocError>
    ensures { OnOk result (indices.new.items ≡ indices.old.items ++ index ∷ []) }
{
    indices.push(index)?;
    Ok(())
}

/// The indices of an IfcLineIndex, of which there must be at least two.
fn line_index(
    alloc: Global,
    table: &Table<'_>,
    at: u64,
    count: usize,
    p: &Param,
) -> Result<Vec<usize>, ItemFault>
    ensures { ReadsList result (line_index table.now at count p.now) }
{
    match param_list(at, 2, p) {
        Ok(members) if members.len() >= 2 => indices(alloc, table, at, count, members),
        Ok(_) => Err(Refusal::BadAttribute { at, position: 2 }.into()),
        Err(fault) => Err(refusal_of(fault).into()),
    }
}

/// A segment by its word.
fn segment_named(
    alloc: Global,
    table: &Table<'_>,
    at: u64,
    count: usize,
    word: &[u8],
    p: &Param,
) -> Result<Vec<usize>, ItemFault>
    ensures { ReadsList result (segment_named table.now at count word.now p.now) }
{
    if word.eq_ignore_ascii_case(b"IFCARCINDEX") {
        return Err(Refusal::Curved { at }.into());
    }
    if !word.eq_ignore_ascii_case(b"IFCLINEINDEX") {
        return Err(Refusal::BadAttribute { at, position: 2 }.into());
    }
    line_index(alloc, table, at, count, p)
}

/// The indices of a segment.
fn segment(
    alloc: Global,
    table: &Table<'_>,
    at: u64,
    count: usize,
    p: &Param,
) -> Result<Vec<usize>, ItemFault>
    ensures { ReadsList result (segment table.now at count p.now) }
{
    match p {
        Param::Typed(keyword, held) => {
            segment_named(
                alloc,
                table,
                at,
                count,
                bytes_at(table.source(), *keyword),
                held.get(),
            )
        }
        _ => Err(Refusal::BadAttribute { at, position: 2 }.into()),
    }
}

/// The first of some indices, and 0 where there is none.
fn first_index(indices: &[usize]) -> usize
    ensures { result ≡ first_index indices.now }
{
    match indices {
        [first, ..] => *first,
        [] => 0,
    }
}

/// The last of some indices, and 0 where there is none.
fn last_index(indices: &[usize]) -> usize
    ensures { result ≡ last_index indices.now }
{
    if indices.is_empty() {
        return 0;
    }
    indices[indices.len() - 1]
}

/// The indices but the first.
fn behind_first(indices: &[usize]) -> &[usize]
    ensures { result.now ≡ drop 1 indices.now }
{
    match indices {
        [_, behind @ ..] => behind,
        [] => &[],
    }
}

/// A segment behind what stands before it: it begins where that ended, and the joint stands once.
fn joined(at: u64, before: Vec<usize>, segment: Vec<usize>) -> Result<Vec<usize>, ItemFault>
    ensures { ReadsList result (joined at before.items segment.items) }
{
    if before.is_empty() {
        return Ok(segment);
    }
    if first_index(&segment) != last_index(&before) {
        return Err(Refusal::BadAttribute { at, position: 2 }.into());
    }
    let mut whole = before;
    append(&mut whole, behind_first(&segment))?;
    Ok(whole)
}

fn append(indices: &mut Vec<usize>, more: &[usize]) -> Result<(), AllocError>
    ensures { OnOk result (indices.new.items ≡ indices.old.items ++ more.now) }
{
    indices.extend_from_slice(more)?;
    Ok(())
}

/// The indices of segments, counted from 1: each begins where the one before it ended.
pub fn segments(
    alloc: Global,
    table: &Table<'_>,
    at: u64,
    count: usize,
    members: &[Param],
) -> Result<Vec<usize>, ItemFault>
    ensures { ReadsList result (segments_after table.now at count [] members.now) }
{
    let mut indices = Vec::new(alloc);
    for p in members {
        let read = segment(alloc, table, at, count, p)?;
        indices = joined(at, indices, read)?;
    }
    Ok(indices)
}
