use crate::asked::{Asked, answers, grid_of};
use entity_reader::has_kind;
use ifc_elem::{Openings, element_body};
use ifc_kinds::Kind;
use std::alloc::{AllocError, Global};
use step_table::Table;

const SAMPLE: &str = "ISO-10303-21;HEADER;FILE_SCHEMA(('IFC4'));ENDSEC;DATA;
#1=IFCSIUNIT(*,.LENGTHUNIT.,.MILLI.,.METRE.);
#2=IFCUNITASSIGNMENT((#1));
#3=IFCPROJECT('1',$,'p',$,$,$,$,(),#2);
#4=IFCCARTESIANPOINT((5.,0.));
#5=IFCAXIS2PLACEMENT3D(#4,$,$);
#6=IFCLOCALPLACEMENT($,#5);
#7=IFCLOCALPLACEMENT(#6,#5);
#8=IFCBLOCK(#5,1.,2.,3.);
#9=IFCSHAPEREPRESENTATION($,'Axis',$,(#4));
#10=IFCSHAPEREPRESENTATION($,'Body',$,(#8,#8));
#11=IFCPRODUCTDEFINITIONSHAPE($,$,(#9,#10));
#12=IFCWALL('2',$,$,$,$,#6,#11,$,$);
#13=IFCOPENINGELEMENT('3',$,$,$,$,#7,#11,$,$);
#14=IFCRELVOIDSELEMENT('4',$,$,$,#12,#13);
#15=IFCSLAB('5',$,$,$,$,#7,$,$,$);
ENDSEC;END-ISO-10303-21;";

/// The openings of the wall and of its opening.
pub(crate) fn openings_text(alloc: Global, table: &Table<'_>) -> Result<String, AllocError> {
    let openings = Openings::of(alloc, table)?;
    format!(in alloc;
        "{:?} {:?}",
        openings.of_element(12),
        openings.of_element(13)
    )
}

/// What is read of an element: where it stands, and how many items it and its openings have.
pub(crate) fn body_text(
    alloc: Global,
    table: &Table<'_>,
    number: u64,
) -> Result<String, AllocError> {
    let Some(g) = grid_of(table) else {
        return String::from_str(alloc, "no unit");
    };
    if !has_kind(table, number, Kind::Wall) && !has_kind(table, number, Kind::Slab) {
        return String::from_str(alloc, "no element");
    }
    let openings = Openings::of(alloc, table)?;
    match element_body(alloc, table, &g, &openings, number) {
        Ok(Some(e)) => format!(in alloc;
            "#{} at {}: {} items, {} of openings",
            e.number,
            e.frame.transform.off.x,
            e.items.len(),
            e.openings.len()
        ),
        Ok(None) => String::from_str(alloc, "no body"),
        Err(fault) => format!(in alloc; "{fault:?}"),
    }
}

#[test]
fn reads_elements(rt: HostRuntime) {
    for (asked, want) in [
        (Asked::Openings, "[14] []"),
        (Asked::Body(12), "#12 at 5000000: 2 items, 2 of openings"),
        (Asked::Body(15), "no body"),
    ] {
        assert!(rt; answers(rt.alloc(), asked, SAMPLE, want), "{want}");
    }
}
