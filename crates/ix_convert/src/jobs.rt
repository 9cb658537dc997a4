ghost use Rattle.std.specs.Prelude.{◌≡◌, [], map, IfSome, string_bytes};
ghost use Rattle.ix_words.specs.Words.{IsInRange};
ghost use Rattle.spec_run.specs.Changes.{change};
ghost use Rattle.spec_run.specs.Tasks.{faulty, task_for, asked};
ghost use Rattle.ix_convert.specs.Answers.{Answers};

mod checking;
mod converting;
mod generating;

use crate::answer::Answer;
use crate::building::Wanted;
use crate::report::Report;
use ix_outside::Source;
use ix_words::{Job, Status};
use mesh_out::MeshWriter;
use std::alloc::Global;

/// Words that stand for no job, or for a format without a writer. The source is left as it was.
pub(crate) fn answer_faulty<S: Source>(_src: &mut S) -> Answer
    ensures { Answers faulty (change S.left S.faults _src.old _src.new) [] result }
{
    Answer {
        status: Status::Usage,
        report: Report::Fixed(
            b"usage: ifcexact convert [--grid=N] [--only=N] [--format=NAME] / check / gen --count=N [--run]\n",
        ),
        puts: false,
    }
}

/// Runs a job of these words up to the writing: what is found, and the page.
fn answer_job<S: Source>(
    alloc: Global,
    words: &[String],
    job: Option<Job>,
    writers: Vec<Box<dyn MeshWriter>>,
    src: &mut S,
    page: &mut Vec<u8>,
) -> Answer
    requires range { IfSome job IsInRange }
    requires empty { page.old.items ≡ [] }
    ensures { Answers (task_for (map string_bytes words.now) (map view writers.items) job)
        (change S.left S.faults src.old src.new) page.new.items result }
{
    match job {
        None => answer_faulty(src),
        Some(Job::Convert { grid, only, format }) => {
            converting::answer(
                alloc,
                words,
                Wanted { grid, only },
                format,
                writers,
                src,
                page,
            )
        }
        Some(Job::Check) => checking::answer(alloc, src),
        Some(Job::Gen { count, run }) => generating::answer(alloc, count, run, src, page),
    }
}

/// Runs the job that the words name up to the writing: what is found, and the page.
pub fn answer_words<S: Source>(
    alloc: Global,
    words: &[String],
    writers: Vec<Box<dyn MeshWriter>>,
    src: &mut S,
    page: &mut Vec<u8>,
) -> Answer
    requires { page.old.items ≡ [] }
    ensures { Answers (asked words.now (map view writers.items)) (change S.left S.faults src.old src.new) page.new.items result }
{
    answer_job(alloc, words, Job::of_words(words), writers, src, page)
}
