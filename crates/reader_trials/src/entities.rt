use crate::asked::{Asked, holds};
use entity_reader::{elements, first_project, unit_of};
use std::alloc::{AllocError, Global};
use step_table::Table;

const SAMPLE: &str = "ISO-10303-21;HEADER;FILE_SCHEMA(('IFC4'));ENDSEC;DATA;
#1=IFCSIUNIT(*,.LENGTHUNIT.,.MILLI.,.METRE.);
#2=IFCUNITASSIGNMENT((#3,#9,#1));
#3=IFCSIUNIT(*,.AREAUNIT.,$,.SQUARE_METRE.);
#8=IFCSIUNIT(*,.LENGTHUNIT.,$,.METRE.);
#6=IFCPROJECT('1',$,'p',$,$,$,$,(),#2);
#7=IFCPROJECT('1',$,'p',$,$,$,$,(),#8);
#14=IfcSlab('2',$);
#13=IFCWALL('2',$);
#15=(IFCWALL('2',$) IFCSLAB('2',$));
#16=IFCOPENINGELEMENT('2',$);
#12=IFCWINDOWSTANDARDCASE('2',$);
ENDSEC;END-ISO-10303-21;";

/// Where the unit of length of the first project stands, and the elements.
pub(crate) fn entities_text(alloc: Global, table: &Table<'_>) -> Result<String, AllocError> {
    let Some(project) = first_project(table) else {
        return String::from_str(alloc, "no project");
    };
    let numbers = elements(alloc, table)?;
    format!(in alloc; "{:?} {:?}", unit_of(table, project), numbers.as_slice())
}

const ROWS: &str = "\
'p' => 'p' => Ok(Some(1)) [14, 13, 12]
,#9, => ,#8, => Ok(Some(8)) [14, 13, 12]
.LENGTHUNIT.,.MILLI. => $,.MILLI. => Ok(None) [14, 13, 12]
#6=IFCPROJECT => #6=IFCPROJEKT => Err(Unsupported { at: 8 }) [14, 13, 12]
#13=IFCWALL => #13=IFCWALLS => Ok(Some(1)) [14, 12]";

#[test]
fn finds_unit_and_elements(rt: HostRuntime) {
    for row in ROWS.lines() {
        assert!(rt; holds(rt.alloc(), Asked::Entities, SAMPLE, row), "at {row}");
    }
}
