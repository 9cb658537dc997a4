use crate::asked::{Asked, holds, millimetres};
use entity_reader::has_kind;
use ifc_curves::{count_loop, named_curve};
use ifc_kinds::Kind;
use std::alloc::{AllocError, Global};
use step_table::Table;

const SAMPLE: &str = "ISO-10303-21;HEADER;FILE_SCHEMA(('IFC4'));ENDSEC;DATA;
#1=IFCCARTESIANPOINT((0.,0.));
#2=IFCCARTESIANPOINT((2.,0.));
#3=IFCCARTESIANPOINT((2.,1.,7.));
#4=IFCPOLYLINE((#1,#2,#3,#1));
#5=IFCCARTESIANPOINTLIST2D(((0.,0.),(4.,0.),(4.,3.),(0.,3.)));
#6=IFCINDEXEDPOLYCURVE(#5,(IFCLINEINDEX((1,2,3)),IFCLINEINDEX((3,4,1))),.F.);
#9=IFCARBITRARYCLOSEDPROFILEDEF(.AREA.,$,#6);
ENDSEC;END-ISO-10303-21;";

/// The corners of the curve of the profile, and how many triangles its sweep has with 4076 others.
pub(crate) fn curve_text(alloc: Global, table: &Table<'_>) -> Result<String, AllocError> {
    if !has_kind(table, 9, Kind::ArbitraryClosedProfileDef) {
        return String::from_str(alloc, "no profile");
    }
    match named_curve(alloc, table, &millimetres(), 9, 3) {
        Ok(found) => {
            let mut text = String::new(alloc);
            for p in found.points() {
                write!(text, "{},{},{} ", p.x, p.y, p.z)?;
            }
            write!(text, "{:?}", count_loop(4076, &found))?;
            Ok(text)
        }
        Err(fault) => format!(in alloc; "{fault:?}"),
    }
}

const ROWS: &str = "\
#6= => #6= => 0,0,0 4000000,0,0 4000000,3000000,0 0,3000000,0 Err(ElementTooLarge { triangles: 4100 })
#6); => #4); => 0,0,0 2000000,0,0 2000000,1000000,0 Ok(4094)
(IFCLINEINDEX((1,2,3)),IFCLINEINDEX((3,4,1))) => $ => \
0,0,0 4000000,0,0 4000000,3000000,0 0,3000000,0 Err(ElementTooLarge { triangles: 4100 })
IFCLINEINDEX((3 => IFCARCINDEX((3 => Refused(Curved { at: 6 })
(3,4,1) => (2,4,1) => Refused(BadAttribute { at: 6, position: 2 })
(3,4,1) => (3,5,1) => Refused(BadAttribute { at: 6, position: 2 })
(4.,0.),(4.,3.) => (0.,0.),(0.,3.) => Refused(BadAttribute { at: 6, position: 1 })";

#[test]
fn reads_curves(rt: HostRuntime) {
    for row in ROWS.lines() {
        assert!(rt; holds(rt.alloc(), Asked::Curve, SAMPLE, row), "at {row}");
    }
}
