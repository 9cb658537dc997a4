use crate::asked::{Asked, holds, holds_with};

const SAMPLE: &str = "ISO-10303-21;
HEADER;
FILE_DESCRIPTION((''),'2;1');
FILE_NAME('','',(''),(''),'','','');
FILE_SCHEMA(('IFC4'));
ENDSEC;
DATA;
#1=IFCSIUNIT(*,.LENGTHUNIT.,.MILLI.,.METRE.);
#2=IFCUNITASSIGNMENT((#1));
#3=IFCCARTESIANPOINT((0.,0.,0.));
#4=IFCAXIS2PLACEMENT3D(#3,$,$);
#5=IFCGEOMETRICREPRESENTATIONCONTEXT($,'Model',3,1.E-5,#4,$);
#6=IFCPROJECT('1',$,'p',$,$,$,$,(#5),#2);
#7=IFCLOCALPLACEMENT($,#4);
#8=IFCDIRECTION((0.,0.,1.));
#9=IFCRECTANGLEPROFILEDEF(.AREA.,$,$,1000.,1000.);
#10=IFCEXTRUDEDAREASOLID(#9,$,#8,1000.);
#11=IFCSHAPEREPRESENTATION(#5,'Body','SweptSolid',(#10));
#12=IFCPRODUCTDEFINITIONSHAPE($,$,(#11));
#13=IFCWALL('2',$,'w',$,$,#7,#12,$,$);
ENDSEC;
END-ISO-10303-21;
";

/// A file whose DATA section holds `?`, at byte 60.
const FRAME: &str = "ISO-10303-21;HEADER;FILE_SCHEMA(('IFC4'));ENDSEC;DATA;
     ?ENDSEC;END-ISO-10303-21;";

/// What stands in the place of `?`, and what the file is read as; places count from the start of the file. A number has at most
/// 18 digits, a real no exponent without digits, and of three repeated numbers the first is named.
const ROWS: &str = " => Ok
#013=a(); => Ok
#1=A($,*,-1,1.E5,'it''s',.T.,\"0aF\",#2,(),(1,(2))); => Ok
#1=(A(1)b()!C());#2=A(B(C(1))); => Ok
#1=endsec(); => Ok
/**/#1 = /* a * / */ A ( ) ; => Ok
#123456789012345678=A(); => Ok
#1234567890123456789=A(); => Syntax { at: 79 }
#1=A(1.E); => Syntax { at: 67 }
#1=A(1.E-); => Syntax { at: 67 }
#1=A(.T); => Syntax { at: 65 }
#1=A('it''s); => Syntax { at: 69 }
#1=A('s); => Syntax { at: 65 }
/*/#1=A(); => Syntax { at: 60 }
#1=A(\"0\");#2=A(\"0a0\"); => Ok
#1=A(\"\"); => Syntax { at: 65 }
#1=(); => Syntax { at: 64 }
#1=A(1,); => Syntax { at: 67 }
#1=A(B(1,2)); => Syntax { at: 68 }
#1=A() => Syntax { at: 66 }
#1=A();#2=A();#02=A();#1=A(); => DuplicateNumber { number: 2, first: 67, second: 74 }
#1=A((((((((((((((((((((((((((((((((1)))))))))))))))))))))))))))))))); => Ok
#1=A(((((((((((((((((((((((((((((((((1))))))))))))))))))))))))))))))))); => Nested { at: 96 }
#1=(A((((((((((((((((((((((((((((((((1))))))))))))))))))))))))))))))))); => Nested { at: 96 }";

#[test]
fn reads_instances(rt: HostRuntime) {
    for row in ROWS.lines() {
        assert!(rt;
            holds_with(rt.alloc(), Asked::File, FRAME, "?", row),
            "at {row}"
        );
    }
}

/// Changes of the sample, with an empty line between each and the next, since some hold the end of a line.
const CHANGES: &str = " =>  => Ok

HEADER => Header => Ok

ISO-10303-21 => iso-10303-21 => Syntax { at: 0 }

ENDSEC;
DATA => DATA => Syntax { at: 116 }


ENDSEC;
END-ISO => 
END-ISO => Syntax { at: 658 }

END-ISO-10303-21;
 => END-ISO-10303-21;
X => Syntax { at: 684 }

('IFC4') => ('IFC2X3','ifc4') => Ok

('IFC4') => ('IFC4X3') => Schema

('IFC4') => 'IFC4' => Schema

FILE_SCHEMA => DATA => Schema";

#[test]
fn reads_the_frame_of_a_file(rt: HostRuntime) {
    for row in CHANGES.split("\n\n") {
        assert!(rt; holds(rt.alloc(), Asked::File, SAMPLE, row), "at {row}");
    }
}
