ghost use Rattle.std.specs.Prelude.{◌≡◌, ◌≤◌, ◌++◌, ◌∷◌, ℕ, List, [], length, IfOk, IfErr, OnOk, codes};
ghost use Rattle.spec_page.specs.Items.{Item};
ghost use Rattle.spec_check.specs.Grammar.{IsPageText};
ghost use Rattle.spec_check.specs.Verdicts.{IsVerdict, elements_in};
ghost use Rattle.obj_read.specs.Answers.{HasLine};
ghost use Rattle.spec_run.specs.Changes.{change};
ghost use Rattle.spec_run.specs.Inputs.{most_bytes};
ghost use Rattle.spec_run.specs.Tasks.Checking.{verdict_status, verdict_text, page_fault_text, checking};
ghost use Rattle.ix_convert.specs.Answers.{AnswersIn, Answers};

use crate::answer::{Answer, MOST_BYTES, built, no_memory, refused, unread};
use crate::report::put_worded;
use ix_outside::{Source, read_whole};
use ix_words::Status;
use mesh_check::check;
use obj_file::ObjFault;
use obj_read::read_obj;
use spec_check::Verdict;
use spec_run::PageFault;
use std::alloc::{AllocError, Global};

fn verdict_status(verdict: Verdict) -> Status
    ensures { result ≡ verdict_status verdict }
{
    match verdict {
        Verdict::Sound => Status::Done,
        _ => Status::CheckFailed,
    }
}

/// Appends a pair of corners between which edges are not balanced.
fn put_pair(text: &mut Vec<u8>, u: usize, v: usize) -> Result<(), AllocError>
    ensures { OnOk result (text.new.items ≡ text.old.items ++ verdict_text (Verdict.Unbalanced u v)) }
{
    put_worded(text, b"check Unbalanced ", u as u64)?;
    put_worded(text, b" ", v as u64)
}

/// Appends what was found of a page.
fn put_verdict(text: &mut Vec<u8>, verdict: Verdict) -> Result<(), AllocError>
    ensures { OnOk result (text.new.items ≡ text.old.items ++ verdict_text verdict) }
{
    match verdict {
        Verdict::Sound => text.extend_from_slice(b"sound"),
        Verdict::FarCorner { v } => put_worded(text, b"check FarCorner ", v as u64),
        Verdict::OffPlane { face } => put_worded(text, b"check OffPlane ", face as u64),
        Verdict::NotConvex { face } => put_worded(text, b"check NotConvex ", face as u64),
        Verdict::Unbalanced { u, v } => put_pair(text, u, v),
        Verdict::WrongVolume { element } => put_worded(text, b"check WrongVolume ", element),
    }
}

/// The report on a page that was checked. The error is want of memory.
fn verdict_report(alloc: Global, verdict: Verdict) -> Result<Vec<u8>, AllocError>
    ensures { IfOk result (λ text. text.items ≡ verdict_text verdict ++ 10 ∷ []) }
{
    let mut text = Vec::new(alloc);
    put_verdict(&mut text, verdict)?;
    text.push(b'\n')?;
    Ok(text)
}

/// The report on a text whose line n, from 1, is the first that is not allowed. The error is want of memory.
fn line_report(alloc: Global, n: usize) -> Result<Vec<u8>, AllocError>
    ensures { IfOk result (λ text. text.items ≡ codes "refused " ++ page_fault_text (PageFault.Line n) ++ 10 ∷ []) }
{
    let mut text = Vec::new(alloc);
    put_worded(&mut text, b"refused Line ", n as u64)?;
    text.push(b'\n')?;
    Ok(text)
}

/// What is found of the page of a text.
fn check_text(alloc: Global, source: &[u8]) -> Result<Verdict, ObjFault>
    ensures found { IfOk result (λ verdict. (grid : ℕ) × (items : List Item) × IsPageText source.now grid items × IsVerdict grid (elements_in items) verdict) }
    ensures refused { IfErr result (HasLine source.now) }
{
    let file = read_obj(alloc, source)?;
    match check(alloc, &file) {
        Ok(verdict) => Ok(verdict),
        Err(AllocError) => Err(ObjFault::NoMemory),
    }
}

/// Checks the page in the bytes of a source that was read to its end.
fn check_bytes(alloc: Global, source: &[u8]) -> Answer
    requires { length source.now ≤ most_bytes }
    ensures { AnswersIn checking source.now [] result }
{
    match check_text(alloc, source) {
        Ok(verdict) => built(
            verdict_status(verdict),
            false,
            verdict_report(alloc, verdict),
        ),
        Err(ObjFault::Line { n }) => refused(line_report(alloc, n)),
        Err(ObjFault::NoMemory) => no_memory(),
    }
}

/// Reads the source, and checks the page that it gives.
pub(crate) fn answer<S: Source>(alloc: Global, src: &mut S) -> Answer
    ensures { Answers checking (change S.left S.faults src.old src.new) [] result }
{
    match read_whole(alloc, src, MOST_BYTES) {
        Ok(source) => check_bytes(alloc, &source),
        Err(fault) => unread(fault),
    }
}
