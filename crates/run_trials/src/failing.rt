use crate::hostile::CUBE;
use crate::samples::{Ended, edited, is_shown, run_into, run_with};
use ix_outside::{FailSink, FailSource, MemSource, Sink};
use std::alloc::{AllocError, Global};
use std::test::Fail;

/// The most bytes of one call.
const MOST: usize = 64;

/// The sizes of the cube.
const SIZES: &str = "1000.,1000.);
#10=IFCEXTRUDEDAREASOLID(#9,$,#8,1000.);";

/// The sizes of a wall of 5000 by 200 by 3000, with a window that reaches through it.
const WINDOW: &str = "5000.,200.);
#10=IFCEXTRUDEDAREASOLID(#9,$,#8,3000.);
#20=IFCCARTESIANPOINT((0.,0.,500.));#21=IFCAXIS2PLACEMENT3D(#20,$,$);#22=IFCLOCALPLACEMENT(#7,#21);
#23=IFCRECTANGLEPROFILEDEF(.AREA.,$,$,1000.,400.);#24=IFCEXTRUDEDAREASOLID(#23,$,#8,2000.);
#25=IFCSHAPEREPRESENTATION(#5,'Body','SweptSolid',(#24));#26=IFCPRODUCTDEFINITIONSHAPE($,$,(#25));
#27=IFCOPENINGELEMENT('3',$,$,$,$,#22,#26,$,$);#28=IFCRELVOIDSELEMENT('4',$,$,$,#13,#27);";

/// The file of the wall with its window.
fn wall(alloc: Global) -> Result<Vec<u8>, AllocError> {
    edited(alloc, CUBE, SIZES, WINDOW)
}

/// What a run into sinks that fail left.
#[derive(Drop)]
struct Left {
    ended: Ended,
    out: FailSink,
    rep: FailSink,
}

/// Converts the wall into sinks of which each fails at these calls.
fn convert_wall(alloc: Global, out_fails: &[u64], rep_fails: &[u64]) -> Result<Left, AllocError> {
    let mut source = MemSource::new(wall(alloc)?);
    let mut out = FailSink::new(alloc, 20_000, MOST, Vec::from_slice(alloc, out_fails)?)?;
    let mut rep = FailSink::new(alloc, 200, MOST, Vec::from_slice(alloc, rep_fails)?)?;
    let no_writers = Vec::new(alloc);
    let ended = run_into(
        alloc,
        "convert",
        &mut source,
        no_writers,
        &mut out,
        &mut rep,
    )?;
    Ok(Left { ended, out, rep })
}

/// How many calls a run over the wall makes of its source, its output and its report.
#[derive(Clone, Copy)]
struct Calls {
    reads: u64,
    writes: u64,
    reports: u64,
}

fn calls_of(bytes: &[u8]) -> u64 {
    bytes.len().div_ceil(MOST) as u64
}

fn calls_made(alloc: Global) -> Result<Calls, AllocError> {
    let left = convert_wall(alloc, &[], &[])?;
    Ok(Calls {
        reads: calls_of(&wall(alloc)?).saturating_add(1),
        writes: calls_of(&left.ended.page),
        reports: calls_of(left.rep.held()),
    })
}

/// Whether a run ends as it is to where its source fails at a call, or makes no such call.
fn ends_at_read(alloc: Global, call: u64, fails: bool) -> Result<bool, AllocError> {
    let mut source = FailSource::new(wall(alloc)?, MOST, Vec::from_slice(alloc, &[call])?);
    let left = run_with(alloc, "convert", &mut source, Vec::new(alloc), 20_000, 200)?;
    let is_ended = if fails {
        left.ended(3, b"read fault\n")
    } else {
        left.ended(
            0,
            b"elements 1 converted 1 skipped 0 refused 0 corners 44 faces 42\n",
        )
    };
    Ok(is_ended && fails == left.out.held().is_empty() && fails == left.page.is_empty())
}

#[test]
fn fails_at_each_read(rt: HostRuntime) -> Result<(), Fail> {
    let calls = calls_made(rt.alloc())?.reads;
    for call in 1..=calls.saturating_add(1) {
        assert!(rt;
            is_shown(ends_at_read(rt.alloc(), call, call <= calls)),
            "call {call}"
        );
    }
    Ok(())
}

/// Whether a run put the page of a whole run up to a call, and then stopped.
fn is_put_until(whole: &Left, left: &Left, call: u64) -> bool {
    let page = whole.ended.page.as_slice();
    let held = left.out.held();
    whole.ended.code == 0
        && left.ended.code == 4
        && left.ended.page.as_slice() == page
        && held.len() as u64 == call.saturating_sub(1).saturating_mul(MOST as u64)
        && page.starts_with(held)
        && left.rep.held().is_empty()
}

fn stops_at_write(alloc: Global, call: u64) -> Result<bool, AllocError> {
    let whole = convert_wall(alloc, &[], &[])?;
    let left = convert_wall(alloc, &[call], &[])?;
    Ok(is_put_until(&whole, &left, call))
}

#[test]
fn fails_at_each_write(rt: HostRuntime) -> Result<(), Fail> {
    for call in 1..=calls_made(rt.alloc())?.writes {
        assert!(rt; is_shown(stops_at_write(rt.alloc(), call)), "call {call}");
    }
    Ok(())
}

/// Whether a run put the page of a whole run, and a part of its report.
fn is_reported_in_part(whole: &Left, left: &Left) -> bool {
    let report = whole.rep.held();
    let held = left.rep.held();
    left.ended.code == 4
        && left.out.held() == whole.ended.page.as_slice()
        && held.len() < report.len()
        && report.starts_with(held)
}

fn stops_at_report(alloc: Global, call: u64) -> Result<bool, AllocError> {
    let whole = convert_wall(alloc, &[], &[])?;
    let left = convert_wall(alloc, &[], &[call])?;
    Ok(is_reported_in_part(&whole, &left))
}

#[test]
fn fails_at_each_report(rt: HostRuntime) -> Result<(), Fail> {
    for call in 1..=calls_made(rt.alloc())?.reports {
        assert!(rt; is_shown(stops_at_report(rt.alloc(), call)), "call {call}");
    }
    Ok(())
}
