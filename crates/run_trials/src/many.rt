use crate::samples::{has, is_shown, joined, run_over};
use std::alloc::{AllocError, Global};

/// Two openings of the wall, each a hole of 100 by 100 along z, whose frames are at (250, 250) and (-250, 250) of its frame.
const OPENED: &str = "HEAD + PROJECT + WALL + \
#20=IFCRECTANGLEPROFILEDEF(.AREA.,$,$,100.,100.);#21=IFCEXTRUDEDAREASOLID(#20,$,#8,1000.);
#22=IFCSHAPEREPRESENTATION($,'Body',$,(#21));#23=IFCPRODUCTDEFINITIONSHAPE($,$,(#22));
#24=IFCCARTESIANPOINT((250.,250.,0.));#25=IFCAXIS2PLACEMENT3D(#24,$,$);#26=IFCLOCALPLACEMENT(#7,#25);
#27=IFCCARTESIANPOINT((-250.,250.,0.));#28=IFCAXIS2PLACEMENT3D(#27,$,$);#29=IFCLOCALPLACEMENT(#7,#28);
#30=IFCOPENINGELEMENT('7',$,$,$,$,#26,#23,$,$);#31=IFCOPENINGELEMENT('8',$,$,$,$,#29,#23,$,$);
#32=IFCRELVOIDSELEMENT('9',$,$,$,#13,#30);#33=IFCRELVOIDSELEMENT('A',$,$,$,#13,#31); + END";

fn cuts(alloc: Global) -> Result<bool, AllocError> {
    let left = run_over(alloc, "convert", joined(alloc, OPENED)?, 40_000, 400)?;
    // 6 * (1000 * 1000 - 2 * 100 * 100) * 1000 steps, each of 10^9 cubic micrometres
    let is_cut = has(&left.page, b"\n#vol6 5880000000000000000\n");
    Ok(left.code == 0 && is_cut)
}

#[test]
fn cuts_several_openings(rt: HostRuntime) {
    assert!(rt; is_shown(cuts(rt.alloc())));
}

/// The front of the file of a wall whose profile has many points, and what stands behind its points.
const POINTS: &str = "HEAD + PROJECT + #40=IFCCARTESIANPOINTLIST2D(((0.,0.)";

const BEHIND: &str =
    "));#41=IFCINDEXEDPOLYCURVE(#40,$,$);#42=IFCARBITRARYCLOSEDPROFILEDEF(.AREA.,$,#41);
#43=IFCEXTRUDEDAREASOLID(#42,$,#8,1000.);#44=IFCSHAPEREPRESENTATION($,'Body',$,(#43));
#45=IFCPRODUCTDEFINITIONSHAPE($,$,(#44));#46=IFCWALL('B',$,'w',$,$,#7,#45,$,$); + END";

/// The parts before a text, then the text so many times, then the parts behind it.
fn repeated(
    alloc: Global,
    before: &str,
    part: &[u8],
    count: usize,
    behind: &str,
) -> Result<Vec<u8>, AllocError> {
    let mut text = joined(alloc, before)?;
    for _ in 0..count {
        text.extend_from_slice(part)?;
    }
    text.extend_from_slice(joined(alloc, behind)?.as_slice())?;
    Ok(text)
}

fn refuses_points(alloc: Global) -> Result<bool, AllocError> {
    let file = repeated(alloc, POINTS, b",(9.,0.),(0.,9.)", 2000, BEHIND)?;
    let left = run_over(alloc, "convert", file, 4000, 400)?;
    Ok(left.ended(
        1,
        b"elements 1 converted 0 skipped 0 refused 1 corners 0 faces 0
#refused 46 E9 ElementTooLarge 24006\n",
    ))
}

fn refuses_line(alloc: Global) -> Result<bool, AllocError> {
    let front = "# ifcexact 1\n# grid 7\n";
    let page = repeated(alloc, front, b"#skipped 5\n", 200, "#skipped\n# end\n")?;
    let left = run_over(alloc, "check", page, 4000, 400)?;
    Ok(left.ended(2, b"refused Line 203\n"))
}

/// A profile of more than 4000 indexed points is read, and counts for its triangles; a faulty line is found behind 200 others.
#[test]
fn reads_long_lists(rt: HostRuntime) {
    assert!(rt; is_shown(refuses_points(rt.alloc())));
    assert!(rt; is_shown(refuses_line(rt.alloc())));
}
