use crate::asked::{Asked, holds, millimetres};
use entity_reader::has_kind;
use ifc_breps::brep_faces;
use ifc_kinds::Kind;
use solid_expr::Face;
use std::alloc::{AllocError, Global};
use step_table::Table;

const SAMPLE: &str = "ISO-10303-21;HEADER;FILE_SCHEMA(('IFC4'));ENDSEC;DATA;
#1=IFCCARTESIANPOINT((0.,0.,0.));
#2=IFCCARTESIANPOINT((1.,0.,0.));
#3=IFCCARTESIANPOINT((0.,1.,0.));
#4=IFCCARTESIANPOINT((0.,0.,1.));
#5=IFCPOLYLOOP((#1,#2,#3));
#6=IFCPOLYLOOP((#1,#2,#4,#1));
#7=IFCFACEOUTERBOUND(#5,.T.);
#8=IFCFACEBOUND(#6,.F.);
#9=IFCFACE((#7,#8));
#10=IFCFACE((#8));
#11=IFCCLOSEDSHELL((#9,#10));
#12=IFCCLOSEDSHELL((#10));
#13=IFCFACETEDBREPWITHVOIDS(#11,(#12,#12));
ENDSEC;END-ISO-10303-21;";

/// The faces by their numbers and the numbers of corners of their loops.
fn faces_text(alloc: Global, faces: &[Face]) -> Result<String, AllocError> {
    let mut text = String::new(alloc);
    for face in faces {
        write!(text, "#{}", face.at)?;
        for l in face.loops.as_slice() {
            write!(text, " {}", l.len())?;
        }
        text.push_str(", ")?;
    }
    Ok(text)
}

/// The faces of the brep of the sample, and how many triangles it has with 100 others.
pub(crate) fn brep_text(alloc: Global, table: &Table<'_>) -> Result<String, AllocError> {
    if !(has_kind(table, 13, Kind::FacetedBrepWithVoids)
        || has_kind(table, 13, Kind::FacetedBrep))
    {
        return String::from_str(alloc, "no brep");
    }
    match brep_faces(alloc, table, &millimetres(), 13, 100) {
        Ok((faces, count)) => {
            let mut text = faces_text(alloc, &faces)?;
            write!(text, "{count}")?;
            Ok(text)
        }
        Err(fault) => format!(in alloc; "{fault:?}"),
    }
}

const ROWS: &str = "\
#13= => #13= => #9 3 3, #10 3, #10 3, #10 3, 115
BREPWITHVOIDS => BREP => #9 3 3, #10 3, 109
(#1,#2,#3) => (#1,#2,#1) => Refused(BadAttribute { at: 5, position: 1 })
(#12,#12) => (#12,#10) => Refused(Unsupported { at: 10 })
(#12,#12) => () => Refused(BadAttribute { at: 13, position: 2 })";

#[test]
fn reads_breps(rt: HostRuntime) {
    for row in ROWS.lines() {
        assert!(rt; holds(rt.alloc(), Asked::Brep, SAMPLE, row), "at {row}");
    }
}
