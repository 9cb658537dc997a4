ghost use Rattle.std.specs.Prelude.{◌≡◌, ◌++◌, List, [], None, IfOk, OnOk};
ghost use Rattle.spec_page.specs.Items.{Item};
ghost use Rattle.spec_page.specs.Page.{page_report};
ghost use Rattle.model_gen.specs.Model.{model};
ghost use Rattle.ix_words.specs.Words.{IsCount};
ghost use Rattle.spec_run.specs.Changes.{change};
ghost use Rattle.spec_run.specs.Tasks.Converting.{Obj, IsPageOf};
ghost use Rattle.spec_run.specs.Tasks.Generating.{generated_line, generating, running, generating_or_running};
ghost use Rattle.ix_page.specs.Counts.{IsTallyOf};
ghost use Rattle.ix_convert.specs.Answers.{AnswersIn, Answers};

use crate::answer::{Answer, built, no_memory};
use crate::building::Wanted;
use crate::jobs::converting::{convert_file, page_status};
use crate::open::ConvertFault;
use crate::report::put_worded;
use ix_outside::Source;
use ix_page::{Tally, page_report};
use ix_words::Status;
use model_gen::generate;
use std::alloc::{AllocError, Global};

/// The report on a generated file of so many walls. The error is want of memory.
fn count_report(alloc: Global, count: u32) -> Result<Vec<u8>, AllocError>
    ensures { IfOk result (λ text. text.items ≡ generated_line count) }
{
    let mut text = Vec::new(alloc);
    put_worded(&mut text, b"generated ", u64::from(count))?;
    text.push(b'\n')?;
    Ok(text)
}

/// The report on a generated file of so many walls, and on its page. The error is want of memory.
fn run_report(alloc: Global, count: u32, tally: &Tally) -> Result<Vec<u8>, AllocError>
    ensures { IfOk result (λ text. (items : List Item) → IsTallyOf tally.now items → text.items ≡ generated_line count ++ page_report items) }
{
    let mut text = count_report(alloc, count)?;
    let report = page_report(alloc, tally)?;
    text.extend_from_slice(&report)?;
    Ok(text)
}

/// Appends the generated file of so many walls.
fn put_model(alloc: Global, count: u32, page: &mut Vec<u8>) -> Result<(), AllocError>
    requires count { IsCount count }
    requires empty { page.old.items ≡ [] }
    ensures { OnOk result (page.new.items ≡ model count) }
{
    let text = generate(alloc, count)?;
    page.extend_from_slice(&text)
}

/// Generates the file of so many walls.
fn generate_page(alloc: Global, count: u32, page: &mut Vec<u8>) -> Answer
    requires count { IsCount count }
    requires empty { page.old.items ≡ [] }
    ensures { AnswersIn (generating count) [] page.new.items result }
{
    match put_model(alloc, count, page) {
        Ok(()) => built(Status::Done, true, count_report(alloc, count)),
        Err(AllocError) => no_memory(),
    }
}

/// Builds the page of the bytes of a generated file.
fn build_model(
    alloc: Global,
    count: u32,
    source: &[u8],
    page: &mut Vec<u8>,
) -> Result<Tally, AllocError>
    requires count { IsCount count }
    requires model { source.now ≡ model count }
    requires empty { page.old.items ≡ [] }
    ensures { IfOk result (λ tally. (items : List Item) × IsPageOf 1000 None Obj (model count) page.new.items items × IsTallyOf tally items) }
{
    let wanted = Wanted {
        grid: 1000,
        only: None,
    };
    match convert_file(alloc, wanted, None, source, page) {
        Ok(tally) => Ok(tally),
        Err(ConvertFault::NoMemory) => Err(AllocError),
        Err(ConvertFault::Refused(_)) => unreachable!(),
    }
}

/// Generates a file, and builds its page.
fn generate_and_build(alloc: Global, count: u32, page: &mut Vec<u8>) -> Result<Tally, AllocError>
    requires count { IsCount count }
    requires empty { page.old.items ≡ [] }
    ensures { IfOk result (λ tally. (items : List Item) × IsPageOf 1000 None Obj (model count) page.new.items items × IsTallyOf tally items) }
{
    let text = generate(alloc, count)?;
    build_model(alloc, count, &text, page)
}

/// Generates the file of so many walls, and builds its page in OBJ text on a grid of a millimetre.
fn run_model(alloc: Global, count: u32, page: &mut Vec<u8>) -> Answer
    requires count { IsCount count }
    requires empty { page.old.items ≡ [] }
    ensures { AnswersIn (running count) [] page.new.items result }
{
    match generate_and_build(alloc, count, page) {
        Ok(tally) => built(
            page_status(tally.refused),
            false,
            run_report(alloc, count, &tally),
        ),
        Err(AllocError) => no_memory(),
    }
}

/// Generates the file of so many walls, or its page.
fn generate_or_run(alloc: Global, count: u32, run: bool, page: &mut Vec<u8>) -> Answer
    requires count { IsCount count }
    requires empty { page.old.items ≡ [] }
    ensures { AnswersIn (generating_or_running count run) [] page.new.items result }
{
    if run {
        run_model(alloc, count, page)
    } else {
        generate_page(alloc, count, page)
    }
}

/// Generates the file of so many walls, or its page. The source is left as it was.
pub(crate) fn answer<S: Source>(
    alloc: Global,
    count: u32,
    run: bool,
    _src: &mut S,
    page: &mut Vec<u8>,
) -> Answer
    requires count { IsCount count }
    requires empty { page.old.items ≡ [] }
    ensures { Answers (generating_or_running count run) (change S.left S.faults _src.old _src.new) page.new.items result }
{
    generate_or_run(alloc, count, run, page)
}
