ghost use Rattle.std.specs.Prelude.{◌≡◌, false, IfOk, OnErr};
ghost use Rattle.ix_convert.specs.Answers.{Says, SaysWant, unread_status, unread_text};

use crate::report::Report;
use ix_outside::TakeFault;
use ix_words::Status;
use std::alloc::AllocError;

/// The greatest number of bytes that are read.
pub(crate) const MOST_BYTES: usize = 1 << 27;

/// The status that is due, and the text that is to be reported with it.
#[derive(Drop)]
pub struct Answer {
    pub status: Status,
    pub report: Report,
    /// Whether the page is put to the output.
    pub puts: bool,
}

/// Want of memory. Its text takes none, so that it hides no fault.
pub(crate) fn no_memory() -> Answer
    ensures { SaysWant result }
{
    Answer {
        status: Status::NoMemory,
        report: Report::Fixed(b"want of memory\n"),
        puts: false,
    }
}

/// The answer with a status and a report that was built, or want of memory.
pub(crate) fn built(status: Status, puts: bool, report: Result<Vec<u8>, AllocError>) -> Answer
    ensures told { IfOk report (λ text. Says result status text.items puts) }
    ensures wants { OnErr report (SaysWant result) }
{
    match report {
        Ok(text) => Answer {
            status,
            report: Report::Built(text),
            puts,
        },
        Err(AllocError) => no_memory(),
    }
}

/// The answer on an input that is refused, by the report that was built, or want of memory.
pub(crate) fn refused(report: Result<Vec<u8>, AllocError>) -> Answer
    ensures told { IfOk report (λ text. Says result Status.FileRefused text.items false) }
    ensures wants { OnErr report (SaysWant result) }
{
    built(Status::FileRefused, false, report)
}

/// The answer on a source that was not read to its end. These texts take no memory, so that want of
/// it hides no fault.
pub(crate) fn unread(fault: TakeFault) -> Answer
    ensures { Says result (unread_status fault) (unread_text fault) false }
{
    match fault {
        TakeFault::Fault => Answer {
            status: Status::ReadFault,
            report: Report::Fixed(b"read fault\n"),
            puts: false,
        },
        TakeFault::TooLarge => Answer {
            status: Status::FileRefused,
            report: Report::Fixed(b"refused FileTooLarge\n"),
            puts: false,
        },
        TakeFault::NoMemory => no_memory(),
    }
}
