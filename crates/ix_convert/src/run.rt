ghost use Rattle.std.specs.Prelude.{◌≡◌, [], map, true, false};
ghost use Rattle.std.specs.Io.KnownBytes.{Appends};
ghost use Rattle.ix_words.specs.Statuses.{is_done};
ghost use Rattle.spec_run.specs.Changes.{change};
ghost use Rattle.spec_run.specs.Findings.{IsMadeBy, IsSoundBy};
ghost use Rattle.spec_run.specs.Tasks.{asked};
ghost use Rattle.ix_convert.specs.Deliveries.{page_if};
ghost use Rattle.ix_convert.specs.Runs.{IsRun};

use crate::deliver::deliver;
use crate::jobs::answer_words;
use ix_outside::{Sink, Source};
use ix_words::Status;
use mesh_out::MeshWriter;
use std::alloc::Global;

/// Runs the job that the words name, the program's name aside: reads the source where the job
/// needs it, builds the page and the report, puts the page to `out` and then the report to `rep`.
///
/// Under `convert` the source is the STEP text of an IFC4 file, and the page is the OBJ text of its
/// elements on the grid that the words say, one item for each wanted element in the order of the file.
/// Where the words name another format, the first of the writers of that name takes the meshes of the
/// converted elements, in the order of the file, behind those that it took before, and the page is its
/// text; the other writers are dropped unused.
/// The answer is the first of these that comes: faulty words, or a format without a writer; a fault of
/// the source, or more than 2^27 bytes; a text that is no file, or nests too deep, at its place; a schema
/// that is not read; a number that is given twice; no project; no unit of length; the page, with its status by
/// whether an element is refused.
///
/// Under `check` the source is a page of this project's OBJ text, whoever wrote it. The page stays empty, and the
/// answer is the first line that is not allowed, or what is found of the page: that it is sound, or what is wrong
/// first. Under `gen` the source is not read, and the page is a generated file; with `--run` the page is the OBJ text of that
/// file's elements on a grid of a millimetre, and is not put.
///
/// Want of memory may come before anything is written, and a fault of `out` or of `rep` takes the place of any
/// other answer.
pub fn convert_run<S: Source, O: Sink, R: Sink>(
    alloc: Global,
    words: &[String],
    src: &mut S,
    out: &mut O,
    rep: &mut R,
    writers: Vec<Box<dyn MeshWriter>>,
    page: &mut Vec<u8>,
) -> Status
    requires { page.old.items ≡ [] }

    // What is found, why, and how it is written.
    ensures run { IsRun (asked words.now (map view writers.items)) page.new.items result
        (change S.left S.faults src.old src.new) (change O.held O.faults out.old out.new) (change R.held R.faults rep.old rep.new) }

    // The page is, under `convert`, that of one item for each wanted element of the file, with all that is promised of it, in
    // OBJ text or as the text of the writer; none under `check`; under `gen` the generated file, or with `--run` the page of it.
    ensures headline { is_done result ≡ true → IsMadeBy (asked words.now (map view writers.items)) (S.left src.old) page.new.items }

    // A page in OBJ text of a file keeps the limits of pages, and `check` finds it sound.
    ensures sound { is_done result ≡ true → IsSoundBy (asked words.now (map view writers.items)) (S.left src.old) page.new.items }

    // It is put whole, but under `check` and `gen --run`, which put nothing.
    ensures out_whole { is_done result ≡ true → Appends (O.held out.old) (O.held out.new)
        (page_if (asked words.now (map view writers.items)).puts page.new.items) }
    ensures out_untouched { (asked words.now (map view writers.items)).puts ≡ false → out.new ≡ out.old }

    // Faulty words and `gen` leave the source as it was, and a refusal leaves the output as it was.
    ensures untouched { (asked words.now (map view writers.items)).reads ≡ false → src.new ≡ src.old }
    ensures out_kept { is_done result ≡ false → (result ≡ Status.WriteFault → ⊥) → out.new ≡ out.old }
{
    let answer = answer_words(alloc, words, writers, src, page);
    deliver(&answer, page, out, rep)
}
