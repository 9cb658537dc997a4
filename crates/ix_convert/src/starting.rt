ghost use Rattle.std.specs.Prelude.{◌≡◌, ℕ, List, IfOk, OnErr, map};
ghost use Rattle.std.specs.Vec.Iter.{into_iter_items};
ghost use Rattle.std.specs.Process.{exit_status};
ghost use Rattle.spec_run.specs.Changes.{change};
ghost use Rattle.spec_run.specs.Tasks.{asked};
ghost use Rattle.ix_convert.specs.Runs.{IsRun};
ghost use Rattle.ix_convert.specs.Starts.{words_in, own_writers, IsStarted};

use crate::run::convert_run;
use crate::words::words_of;
use ix_outside::{Sink, Source};
use ix_words::Status;
use mesh_out::{MeshWriter, OffWriter};
use std::alloc::{AllocError, Global};
use std::env::Args;
use std::io;
use std::process::ExitCode;

/// Runs the job that the words name with the program's own writers, from an empty page on.
fn run_with<S: Source, O: Sink, R: Sink>(
    alloc: Global,
    words: &[String],
    writers: Vec<Box<dyn MeshWriter>>,
    src: &mut S,
    out: &mut O,
    rep: &mut R,
) -> Status
    requires { map view writers.items ≡ own_writers }
    ensures { (page : List ℕ) × IsRun (asked words.now own_writers) page result
        (change S.left S.faults src.old src.new) (change O.held O.faults out.old out.new) (change R.held R.faults rep.old rep.new) }
{
    let mut page = Vec::new(alloc);
    convert_run(alloc, words, src, out, rep, writers, &mut page)
}

/// Runs the job that the words name with the writer `off`. Where memory is wanting for it, nothing is read or written.
fn run<S: Source, O: Sink, R: Sink>(
    alloc: Global,
    words: &[String],
    src: &mut S,
    out: &mut O,
    rep: &mut R,
) -> Result<Status, AllocError>
    ensures run { IfOk result (λ status. (page : List ℕ) × IsRun (asked words.now own_writers) page status
        (change S.left S.faults src.old src.new) (change O.held O.faults out.old out.new) (change R.held R.faults rep.old rep.new)) }
    ensures unread { OnErr result (src.new ≡ src.old) }
    ensures unput { OnErr result (out.new ≡ out.old) }
    ensures unreported { OnErr result (rep.new ≡ rep.old) }
{
    let off: Box<dyn MeshWriter> = Box::new(alloc, OffWriter::new(alloc))?;
    let mut writers = Vec::new(alloc);
    writers.push(off)?;
    Ok(run_with(alloc, words, writers, src, out, rep))
}

/// Runs the program on the arguments that it was started with, its name the first: the job that the words behind the name ask
/// for, with the writer `off`. Where an argument is no text there are no words. Answers the exit code of the run's status;
/// where memory is wanting before the run begins it is that of want of memory, and nothing is read or written.
pub fn start<S: Source, O: Sink, R: Sink>(
    alloc: Global,
    args: io::Result<Args>,
    src: &mut S,
    out: &mut O,
    rep: &mut R,
) -> ExitCode
    ensures { IsStarted (words_in into_iter_items args) (change S.left S.faults src.old src.new)
        (change O.held O.faults out.old out.new) (change R.held R.faults rep.old rep.new) (exit_status result) }
{
    let words = match words_of(alloc, args) {
        Ok(words) => words,
        Err(AllocError) => return ExitCode::from(Status::NoMemory.code()),
    };
    match run(alloc, &words, src, out, rep) {
        Ok(status) => ExitCode::from(status.code()),
        Err(AllocError) => ExitCode::from(Status::NoMemory.code()),
    }
}
