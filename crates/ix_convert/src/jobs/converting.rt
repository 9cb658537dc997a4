ghost use Rattle.std.specs.Prelude.{◌≡◌, ◌≤◌, ◌<◌, ◌++◌, ◌∷◌, List, [], length, map, vec_len, slice_get, IfSome, IfOk, IfErr, OnOk, string_bytes, codes};
ghost use Rattle.std.specs.Option.{option_map};
ghost use Rattle.spec_page.specs.Items.{Item};
ghost use Rattle.ix_words.specs.Words.{IsGrid};
ghost use Rattle.spec_run.specs.Changes.{change};
ghost use Rattle.spec_run.specs.Inputs.{most_bytes, fault_text};
ghost use Rattle.spec_run.specs.Tasks.{converting_to};
ghost use Rattle.spec_run.specs.Tasks.Converting.{TextOf, format_of, IsPageOf, page_status, converting};
ghost use Rattle.ix_page.specs.Counts.{IsTallyOf};
ghost use Rattle.ix_convert.specs.Answers.{AnswersIn, Answers};
ghost use Rattle.ix_convert.specs.Conversions.{HasReason, LeavesBlank, format_by};

use crate::answer::{Answer, MOST_BYTES, built, no_memory, refused, unread};
use crate::building::{Wanted, build_page};
use crate::choosing::writer_place;
use crate::jobs::answer_faulty;
use crate::open::{ConvertFault, OpenFile, open_file};
use crate::report::put_worded;
use ifc_numbers::GeomIn;
use ix_outside::{Source, read_whole};
use ix_page::{Tally, page_report};
use ix_words::Status;
use mesh_out::MeshWriter;
use spec_run::FileFault;
use std::alloc::{AllocError, Global};

/// Appends the fault of a number that is given twice.
fn put_duplicate(
    text: &mut Vec<u8>,
    number: u64,
    first: usize,
    second: usize,
) -> Result<(), AllocError>
    ensures { OnOk result (text.new.items ≡ text.old.items ++ fault_text (FileFault.DuplicateNumber number first second)) }
{
    put_worded(text, b"DuplicateNumber ", number)?;
    put_worded(text, b" at ", first as u64)?;
    put_worded(text, b" and ", second as u64)
}

/// Appends why a file is refused.
fn put_fault(text: &mut Vec<u8>, fault: FileFault) -> Result<(), AllocError>
    ensures { OnOk result (text.new.items ≡ text.old.items ++ fault_text fault) }
{
    match fault {
        FileFault::TooLarge => text.extend_from_slice(b"FileTooLarge"),
        FileFault::Syntax { at } => put_worded(text, b"Syntax at ", at as u64),
        FileFault::Nested { at } => put_worded(text, b"Nested at ", at as u64),
        FileFault::Schema => text.extend_from_slice(b"Schema"),
        FileFault::DuplicateNumber {
            number,
            first,
            second,
        } => put_duplicate(text, number, first, second),
        FileFault::NoProject => text.extend_from_slice(b"NoProject"),
        FileFault::NoLengthUnit => text.extend_from_slice(b"NoLengthUnit"),
    }
}

/// The report on a refused file. The error is want of memory.
fn fault_report(alloc: Global, fault: FileFault) -> Result<Vec<u8>, AllocError>
    ensures { IfOk result (λ text. text.items ≡ codes "refused " ++ fault_text fault ++ 10 ∷ []) }
{
    let mut text = Vec::from_slice(alloc, b"refused ")?;
    put_fault(&mut text, fault)?;
    text.push(b'\n')?;
    Ok(text)
}

pub(crate) fn page_status(refused: u128) -> Status
    ensures { result ≡ page_status refused }
{
    if refused == 0 {
        Status::Done
    } else {
        Status::SomeRefused
    }
}

/// Builds the page of the bytes of a file: OBJ text, or the text of a writer.
pub(crate) fn convert_file(
    alloc: Global,
    wanted: Wanted,
    form: Option<Box<dyn MeshWriter>>,
    source: &[u8],
    page: &mut Vec<u8>,
) -> Result<Tally, ConvertFault>
    requires grid { IsGrid wanted.grid }
    requires small { length source.now ≤ most_bytes }
    requires empty { page.old.items ≡ [] }
    ensures page { IfOk result (λ tally. (items : List Item)
        × IsPageOf wanted.grid wanted.only (format_by (option_map view form)) source.now page.new.items items × IsTallyOf tally items) }
    ensures refused { IfErr result (HasReason source.now) }
    ensures blank { IfErr result (LeavesBlank page.new.items) }
{
    let OpenFile { table, unit } = open_file(alloc, source)?;
    let g = GeomIn {
        unit,
        step: wanted.grid,
    };
    match build_page(alloc, &table, &g, wanted.only, form, page) {
        Ok(tally) => Ok(tally),
        Err(AllocError) => Err(ConvertFault::NoMemory),
    }
}

/// Builds the page of the bytes of a source that was read to its end.
fn convert(
    alloc: Global,
    wanted: Wanted,
    form: Option<Box<dyn MeshWriter>>,
    source: &[u8],
    page: &mut Vec<u8>,
) -> Answer
    requires grid { IsGrid wanted.grid }
    requires small { length source.now ≤ most_bytes }
    requires empty { page.old.items ≡ [] }
    ensures { AnswersIn (converting wanted.grid wanted.only (format_by (option_map view form))) source.now page.new.items result }
{
    match convert_file(alloc, wanted, form, source, page) {
        Ok(tally) => built(page_status(tally.refused), true, page_report(alloc, &tally)),
        Err(ConvertFault::Refused(fault)) => refused(fault_report(alloc, fault)),
        Err(ConvertFault::NoMemory) => no_memory(),
    }
}

/// Reads the source, and builds the page of the file that it gives: OBJ text, or the text of a writer.
fn convert_source<S: Source>(
    alloc: Global,
    wanted: Wanted,
    form: Option<Box<dyn MeshWriter>>,
    src: &mut S,
    page: &mut Vec<u8>,
) -> Answer
    requires grid { IsGrid wanted.grid }
    requires empty { page.old.items ≡ [] }
    ensures { Answers (converting wanted.grid wanted.only (format_by (option_map view form)))
        (change S.left S.faults src.old src.new) page.new.items result }
{
    match read_whole(alloc, src, MOST_BYTES) {
        Ok(source) => convert(alloc, wanted, form, &source, page),
        Err(fault) => unread(fault),
    }
}

/// Converts the source to the text of the writer at a place. The others are dropped unused.
fn convert_through<S: Source>(
    alloc: Global,
    wanted: Wanted,
    writers: Vec<Box<dyn MeshWriter>>,
    at: usize,
    src: &mut S,
    page: &mut Vec<u8>,
) -> Answer
    requires at { at < vec_len writers }
    requires grid { IsGrid wanted.grid }
    requires empty { page.old.items ≡ [] }
    ensures { IfSome (slice_get writers.items at) (λ w. Answers (converting wanted.grid wanted.only (TextOf (view w)))
        (change S.left S.faults src.old src.new) page.new.items result) }
{
    let mut writers = writers;
    let writer = writers.remove(at);
    convert_source(alloc, wanted, Some(writer), src, page)
}

/// Converts the source to the text of the writer that the word at a place names, if there is one.
fn answer_format<S: Source>(
    alloc: Global,
    words: &[String],
    wanted: Wanted,
    format: usize,
    writers: Vec<Box<dyn MeshWriter>>,
    src: &mut S,
    page: &mut Vec<u8>,
) -> Answer
    requires format { 0 < format }
    requires grid { IsGrid wanted.grid }
    requires empty { page.old.items ≡ [] }
    ensures { Answers (converting_to wanted.grid wanted.only (format_of (map string_bytes words.now) (map view writers.items) format))
        (change S.left S.faults src.old src.new) page.new.items result }
{
    match writer_place(words, format, &writers) {
        Some(at) => convert_through(alloc, wanted, writers, at, src, page),
        None => answer_faulty(src),
    }
}

/// Converts the source to OBJ text, or to the text of the writer that the word at a place names.
pub(crate) fn answer<S: Source>(
    alloc: Global,
    words: &[String],
    wanted: Wanted,
    format: usize,
    writers: Vec<Box<dyn MeshWriter>>,
    src: &mut S,
    page: &mut Vec<u8>,
) -> Answer
    requires grid { IsGrid wanted.grid }
    requires empty { page.old.items ≡ [] }
    ensures { Answers (converting_to wanted.grid wanted.only (format_of (map string_bytes words.now) (map view writers.items) format))
        (change S.left S.faults src.old src.new) page.new.items result }
{
    if format == 0 {
        return convert_source(alloc, wanted, None, src, page);
    }
    answer_format(alloc, words, wanted, format, writers, src, page)
}
