use crate::asked::{Asked, answers};
use ifc_geom::{GeomIn, read_solid};
use ix_place::{Frame, LengthUnit, Map, Prefix};
use solid_expr::Solid;
use std::alloc::{AllocError, Global};
use step_table::Table;

const SAMPLE: &str = "ISO-10303-21;HEADER;FILE_SCHEMA(('IFC4'));ENDSEC;DATA;
#1=IFCCARTESIANPOINT((1.,0.,0.));
#2=IFCAXIS2PLACEMENT3D(#1,$,$);
#3=IFCDIRECTION((0.,0.,1.));
#4=IFCRECTANGLEPROFILEDEF(.AREA.,$,$,4.,2.);
#5=IFCEXTRUDEDAREASOLID(#4,#2,#3,3.);
#6=IFCBLOCK(#2,1.,2.,3.);
#7=IFCPLANE(#2);
#8=IFCHALFSPACESOLID(#7,.T.);
#9=IFCBOOLEANRESULT(.DIFFERENCE.,#5,#8);
#10=IFCCARTESIANPOINTLIST2D(((0.,0.),(4.,0.),(4.,3.)));
#11=IFCINDEXEDPOLYCURVE(#10,$,.F.);
#12=IFCPOLYGONALBOUNDEDHALFSPACE(#7,.F.,#2,#11);
#13=IFCCSGSOLID(#6);
#14=IFCCARTESIANTRANSFORMATIONOPERATOR3D($,$,#1,2.,$);
#15=IFCSHAPEREPRESENTATION($,$,$,(#6,#13));
#16=IFCREPRESENTATIONMAP(#2,#15);
#17=IFCMAPPEDITEM(#16,#14);
#18=IFCBOOLEANRESULT(.UNION.,#18,#6);
#19=IFCBOOLEANCLIPPINGRESULT(.UNIONS.,#18,#6);
#20=IFCMAPPEDITEM(#16,#3);
ENDSEC;END-ISO-10303-21;";

/// A solid by its numbers, where each part stands, and the numbers of its faces.
fn push_solid(text: &mut String, solid: &Solid) -> Result<(), AllocError> {
    match solid {
        Solid::Faces { at, map, faces } => {
            let transform = map.transform;
            write!(
                text,
                "#{at} by {} at {}, {} faces",
                transform.x.x,
                transform.off.x,
                faces.len()
            )
        }
        Solid::Half { at, map, agreement } => {
            let transform = map.transform;
            write!(text, "#{at} at {} {agreement}", transform.off.x)
        }
        Solid::Combined {
            at,
            operator,
            first,
            second,
        } => {
            write!(text, "#{at} {operator:?} of ")?;
            push_solid(text, first.get())?;
            text.push_str(" and ")?;
            push_solid(text, second.get())
        }
        Solid::Union { at, parts } => {
            write!(text, "#{at} all of ")?;
            for part in parts.as_slice() {
                push_solid(text, part)?;
                text.push_str("; ")?;
            }
            Ok(())
        }
    }
}

/// The solid of a number, in micrometres, and how many triangles and half-spaces it has.
pub(crate) fn solid_text(
    alloc: Global,
    table: &Table<'_>,
    number: u64,
) -> Result<String, AllocError> {
    let unit = LengthUnit::of_metre(Some(Prefix::Micro));
    let map = Map::of_frame(&Frame::identity());
    match read_solid(alloc, table, &GeomIn { unit, step: 1 }, number, &map, 1, 0) {
        Ok((solid, count)) => {
            let mut text = String::new(alloc);
            push_solid(&mut text, &solid)?;
            write!(text, ", {count}")?;
            Ok(text)
        }
        Err(fault) => format!(in alloc; "{fault:?}"),
    }
}

#[test]
fn reads_solids(rt: HostRuntime) {
    for (number, want) in [
        (5, "#5 by 1000000000 at 1000, 6 faces, 24"),
        (6, "#6 by 1000000000 at 1000, 6 faces, 24"),
        (8, "#8 at 1000 true, 1"),
        (
            9,
            "#9 Difference of #5 by 1000000000 at 1000, 6 faces and #8 at 1000 true, 25",
        ),
        (
            12,
            "#12 Intersection of #12 at 1000 false and #12 by 1000000000 at 1000, 5 faces, 19",
        ),
        (13, "#13 all of #6 by 1000000000 at 1000, 6 faces; , 24"),
        (
            17,
            "#17 all of #6 by 2000000000 at 5000, 6 faces; #13 all of #6 by 2000000000 at 5000, 6 faces; ; , 48",
        ),
        (18, "Refused(TooDeep { at: 18 })"),
        (19, "Refused(BadAttribute { at: 19, position: 1 })"),
        (20, "Refused(Unsupported { at: 3 })"),
        (4, "Refused(Unsupported { at: 4 })"),
    ] {
        assert!(rt;
            answers(rt.alloc(), Asked::Solid(number), SAMPLE, want),
            "at {number}"
        );
    }
}
