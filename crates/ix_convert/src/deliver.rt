ghost use Rattle.std.specs.Prelude.{◌≡◌, ◌≢◌, ◌≤◌, true, false, IsOk, OnOk, OnErr};
ghost use Rattle.std.specs.Io.KnownBytes.{Appends};
ghost use Rattle.spec_outside.specs.Causes.{Rose, AppendsFront};
ghost use Rattle.spec_run.specs.Changes.{change};
ghost use Rattle.ix_convert.specs.Answers.{text_of};
ghost use Rattle.ix_convert.specs.Deliveries.{page_if, PutsWhole, PutsFront, IsDelivered};

use crate::answer::Answer;
use ix_outside::{Sink, WriteFault, write_whole};
use ix_words::Status;

/// Puts a text to a sink.
fn put_text<O: Sink>(out: &mut O, text: &[u8]) -> Result<(), WriteFault>
    ensures whole { OnOk result (PutsWhole (change O.held O.faults out.old out.new) text.now) }
    ensures front { OnErr result (PutsFront (change O.held O.faults out.old out.new) text.now) }
{
    write_whole(out, text)
}

/// Puts the page, if it is to be put.
fn put_page<O: Sink>(puts: bool, page: &[u8], out: &mut O) -> Result<(), WriteFault>
    ensures whole { OnOk result (PutsWhole (change O.held O.faults out.old out.new) (page_if puts page.now)) }
    ensures front { OnErr result ((puts ≡ true) × PutsFront (change O.held O.faults out.old out.new) page.now) }
    ensures kept { puts ≡ false → out.new ≡ out.old }
{
    if puts { put_text(out, page) } else { Ok(()) }
}

/// Puts the page, if it is to be put, and then the report. A fault takes the place of the status, and nothing is reported after
/// a fault of the page.
pub fn deliver<O: Sink, R: Sink>(answer: &Answer, page: &[u8], out: &mut O, rep: &mut R) -> Status
    ensures delivered { IsDelivered answer.now.status answer.now.puts page.now (text_of answer.now.report)
        (change O.held O.faults out.old out.new) (change R.held R.faults rep.old rep.new) result }
    ensures kept { answer.now.puts ≡ false → out.new ≡ out.old }
{
    if put_page(answer.puts, page, out).is_err() {
        return Status::WriteFault;
    }
    if put_text(rep, answer.report.text()).is_err() {
        return Status::WriteFault;
    }
    answer.status
}
