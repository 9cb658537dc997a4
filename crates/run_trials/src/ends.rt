ghost use Rattle.std.specs.declared.option.Option.TheVariants.{None};

use crate::samples::{WALL_FILE, has, is_shown, joined, run_into, run_over, run_with};
use ix_outside::{FailSink, FailSource, Failed, MemSink, MemSource, Sink, Source, read_whole};
use std::alloc::{AllocError, Global};

/// A source that fails at once.
#[derive(Drop)]
struct Broken {
    faults: u64,
}

impl Source for Broken {
    ghost left = { λ s. None };

    ghost faults = { λ s. s.faults };

    fn take(&mut self, _buf: &mut [u8]) -> Result<usize, Failed> {
        self.faults = self.faults.saturating_add(1);
        Err(Failed)
    }
}

/// The output fails at its third call.
fn stops_at_a_write(alloc: Global) -> Result<bool, AllocError> {
    let mut source = MemSource::new(joined(alloc, WALL_FILE)?);
    let mut out = FailSink::new(alloc, 4000, 64, vec![in alloc; 3u64]?)?;
    let mut rep = MemSink::new(alloc, 200)?;
    let no_writers = Vec::new(alloc);
    let ended = run_into(
        alloc,
        "convert",
        &mut source,
        no_writers,
        &mut out,
        &mut rep,
    )?;
    Ok(
        ended.code == 4
            && out.held().len() == 128
            && ended.page.as_slice().starts_with(out.held())
            && rep.held().is_empty(),
    )
}

#[test]
fn stops_where_the_output_fails(rt: HostRuntime) {
    assert!(rt; is_shown(stops_at_a_write(rt.alloc())));
}

/// The report has room for nine bytes.
fn reports_in_part(alloc: Global) -> Result<bool, AllocError> {
    let left = run_over(alloc, "convert", joined(alloc, WALL_FILE)?, 4000, 9)?;
    Ok(left.ended(4, b"elements ") && left.is_put())
}

/// The source fails at its second call.
fn names_a_read_fault(alloc: Global) -> Result<bool, AllocError> {
    let mut source = FailSource::new(joined(alloc, WALL_FILE)?, 64, vec![in alloc; 2u64]?);
    let left = run_with(alloc, "convert", &mut source, Vec::new(alloc), 4000, 200)?;
    Ok(left.ended(3, b"read fault\n") && left.out.held().is_empty())
}

#[test]
fn answers_faults_of_the_ends(rt: HostRuntime) {
    assert!(rt; is_shown(reports_in_part(rt.alloc())));
    assert!(rt; is_shown(names_a_read_fault(rt.alloc())));
}

/// Whether a source still has these bytes, and no others.
fn has_left(alloc: Global, source: &mut MemSource, bytes: &[u8]) -> Result<bool, AllocError> {
    match read_whole(alloc, source, 4000) {
        Ok(all) => Ok(all.as_slice() == bytes),
        Err(_) => Ok(false),
    }
}

fn leaves_the_source(alloc: Global) -> Result<bool, AllocError> {
    let wall = joined(alloc, WALL_FILE)?;
    let mut source = MemSource::new(wall.clone()?);
    run_with(
        alloc,
        "convert --only=0",
        &mut source,
        Vec::new(alloc),
        4000,
        200,
    )?;
    has_left(alloc, &mut source, &wall)
}

#[test]
fn reads_nothing_for_faulty_words(rt: HostRuntime) {
    assert!(rt; is_shown(leaves_the_source(rt.alloc())));
}

/// Whether a job runs over a source that fails at once, with a report that begins with a text, a page that has a text, and the
/// page put or nothing.
fn generates(
    alloc: Global,
    words: &str,
    report: &str,
    is_put: bool,
    text: &str,
) -> Result<bool, AllocError> {
    let mut source = Broken { faults: 0 };
    let left = run_with(alloc, words, &mut source, Vec::new(alloc), 40_000, 200)?;
    let is_right = if is_put {
        left.is_put()
    } else {
        left.out.held().is_empty()
    };
    Ok(
        left.code == 0
            && left.rep.held().starts_with(report.as_bytes())
            && has(&left.page, text.as_bytes())
            && left.out.held().is_empty() != is_put
            && is_right,
    )
}

#[test]
fn generates_without_reading(rt: HostRuntime) {
    for (words, report, is_put, text) in [
        ("gen --count=1", "generated 1\n", true, "#107=IFCWALL"),
        (
            "gen --run --count=1",
            "generated 1\nelements 2 converted 2 skipped 0 refused 0 ",
            false,
            "\n#vol6 16848000000000000000\n",
        ),
    ] {
        assert!(rt;
            is_shown(generates(rt.alloc(), words, report, is_put, text)),
            "{words}"
        );
    }
}
