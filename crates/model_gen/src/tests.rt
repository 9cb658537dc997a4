use crate::blocks::{put_hole, put_wall};
use crate::generate;
use std::test::Fail;

#[test]
fn writes_the_second_wall(rt: HostRuntime) -> Result<(), Fail> {
    let mut page = Vec::new(rt.alloc());
    put_wall(&mut page, 1)?;
    let before_window = b"\
#120=IFCCARTESIANPOINT((6000.,0.,0.));
#121=IFCAXIS2PLACEMENT3D(#120,$,$);
#122=IFCLOCALPLACEMENT($,#121);
#123=IFCRECTANGLEPROFILEDEF(.AREA.,$,$,5000.,200.);
#124=IFCEXTRUDEDAREASOLID(#123,$,#8,3000.);
#125=IFCSHAPEREPRESENTATION(#5,'Body','SweptSolid',(#124));
#126=IFCPRODUCTDEFINITIONSHAPE($,$,(#125));
#127=IFCWALL('',$,$,$,$,#122,#126,$,$);
#128=IFCCARTESIANPOINT((0.,0.,900.));
";
    let window = b"\
#130=IFCLOCALPLACEMENT(#122,#129);
#131=IFCRECTANGLEPROFILEDEF(.AREA.,$,$,900.,400.);
#132=IFCEXTRUDEDAREASOLID(#131,$,#8,1200.);
#133=IFCSHAPEREPRESENTATION(#5,'Body','SweptSolid',(#132));
#134=IFCPRODUCTDEFINITIONSHAPE($,$,(#133));
#135=IFCOPENINGELEMENT('',$,$,$,$,#130,#134,$,$);
#136=IFCRELVOIDSELEMENT('',$,$,$,#127,#135);
";
    assert!(rt; page.starts_with(before_window));
    assert!(rt; page.ends_with(window));
    Ok(())
}

#[test]
fn writes_a_hole_of_the_second_row(rt: HostRuntime) -> Result<(), Fail> {
    let mut page = Vec::new(rt.alloc());
    put_hole(&mut page, 16)?;
    let hole = b"\
#10260=IFCCARTESIANPOINT((-6250.,-3750.,-50.));
#10261=IFCAXIS2PLACEMENT3D(#10260,$,$);
#10262=IFCLOCALPLACEMENT(#10002,#10261);
#10263=IFCOPENINGELEMENT('',$,$,$,$,#10262,#10011,$,$);
#10264=IFCRELVOIDSELEMENT('',$,$,$,#10007,#10263);
";
    assert_eq!(rt; page.as_slice(), hole.as_slice());
    Ok(())
}

#[test]
fn writes_a_file(rt: HostRuntime) -> Result<(), Fail> {
    let page = generate(rt.alloc(), 2)?;
    let head = b"\
ISO-10303-21;
HEADER;
FILE_DESCRIPTION((''),'2;1');
FILE_NAME('','',(''),(''),'','','');
FILE_SCHEMA(('IFC4'));
ENDSEC;
DATA;
#1=IFCSIUNIT(*,.LENGTHUNIT.,.MILLI.,.METRE.);
#2=IFCUNITASSIGNMENT((#1));
#3=IFCCARTESIANPOINT((0.,0.,0.));
#4=IFCAXIS2PLACEMENT3D(#3,$,$);
#5=IFCGEOMETRICREPRESENTATIONCONTEXT($,'Model',3,1.E-5,#4,$);
#6=IFCPROJECT('1',$,'p',$,$,$,$,(#5),#2);
#8=IFCDIRECTION((0.,0.,1.));
#100=IFCCARTESIANPOINT((0.,0.,0.));
";
    let end = b"\
#10114=IFCRELVOIDSELEMENT('',$,$,$,#10007,#10113);
ENDSEC;
END-ISO-10303-21;
";
    assert!(rt; page.starts_with(head));
    assert!(rt; page.ends_with(end));
    Ok(())
}
