use crate::asked::{Asked, holds_with, millimetres};
use entity_reader::has_kind;
use ifc_kinds::Kind;
use ifc_profiles::named_profile;
use ix_profile::Loops;
use std::alloc::{AllocError, Global};
use step_table::Table;

const SAMPLE: &str = "ISO-10303-21;HEADER;FILE_SCHEMA(('IFC4'));ENDSEC;DATA;
#1=IFCCARTESIANPOINTLIST2D(((0.,0.),(4.,0.),(4.,3.),(0.,3.)));
#2=IFCCARTESIANPOINTLIST2D(((1.,1.),(2.,1.),(1.,2.)));
#3=IFCINDEXEDPOLYCURVE(#1,$,.F.);
#4=IFCINDEXEDPOLYCURVE(#2,$,.F.);
#5=IFCCARTESIANPOINT((10.,20.));
#6=IFCDIRECTION((0.,1.));
#7=IFCAXIS2PLACEMENT2D(#5,#6);
#9=IFCARBITRARYPROFILEDEFWITHVOIDS(.AREA.,$,#3,(#4));
#10=IFCEXTRUDEDAREASOLID(#9,$,$,1.);
ENDSEC;END-ISO-10303-21;";

/// The line of the profile in the sample.
const PROFILE: &str = "#9=IFCARBITRARYPROFILEDEFWITHVOIDS(.AREA.,$,#3,(#4));";

/// The corners of loops in micrometres.
fn loops_text(alloc: Global, loops: &Loops) -> Result<String, AllocError> {
    let mut text = String::new(alloc);
    for l in loops.as_slice() {
        for p in l.points() {
            write!(text, "{},{} ", p.x / 1000, p.y / 1000)?;
        }
        text.push_str("| ")?;
    }
    Ok(text)
}

/// The loops of the profile of the sample, and how many triangles its sweep has with 100 others.
pub(crate) fn profile_text(alloc: Global, table: &Table<'_>) -> Result<String, AllocError> {
    if !has_kind(table, 10, Kind::ExtrudedAreaSolid) {
        return String::from_str(alloc, "no extrusion");
    }
    match named_profile(alloc, table, &millimetres(), 10, 1, 100) {
        Ok((loops, count)) => {
            let mut text = loops_text(alloc, &loops)?;
            write!(text, "{count}")?;
            Ok(text)
        }
        Err(fault) => format!(in alloc; "{fault:?}"),
    }
}

/// What stands in the place of the line of the profile, and what is read then.
const ROWS: &str = "\
#9=IFCARBITRARYPROFILEDEFWITHVOIDS(.AREA.,$,#3,(#4)); => \
0,0 4000,0 4000,3000 0,3000 | 1000,1000 2000,1000 1000,2000 | 142
#9=IFCARBITRARYCLOSEDPROFILEDEF(.AREA.,$,#3); => 0,0 4000,0 4000,3000 0,3000 | 124
#9=IFCRECTANGLEPROFILEDEF(.AREA.,$,#7,4.,2.); => 11000,18000 11000,22000 9000,22000 9000,18000 | 124
#9=IFCRECTANGLEHOLLOWPROFILEDEF(.AREA.,$,$,4.,2.,0.5,$,0.); => \
-2000,-1000 2000,-1000 2000,1000 -2000,1000 | -1500,-500 1500,-500 1500,500 -1500,500 | 148
#9=IFCRECTANGLEHOLLOWPROFILEDEF(.AREA.,$,$,4.,2.,1.,0.1,$); => Refused(BadAttribute { at: 9, position: 6 })
#9=IFCISHAPEPROFILEDEF(.AREA.,$,$,4.,2.,1.,0.5,$,$,0); => \
-2000,-1000 2000,-1000 2000,-500 500,-500 500,500 2000,500 \
2000,1000 -2000,1000 -2000,500 -500,500 -500,-500 -2000,-500 | 172
#9=IFCISHAPEPROFILEDEF(.AREA.,$,$,4.,2.,1.,0.5,$,0.1,$); => Refused(Curved { at: 9 })
#9=IFCCIRCLEPROFILEDEF(.AREA.,$,$,4.); => Refused(Unsupported { at: 9 })";

#[test]
fn reads_profiles(rt: HostRuntime) {
    for row in ROWS.lines() {
        assert!(rt;
            holds_with(rt.alloc(), Asked::Profile, SAMPLE, PROFILE, row),
            "at {row}"
        );
    }
}
