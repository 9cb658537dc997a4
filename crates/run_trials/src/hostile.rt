use crate::samples::{edited, has, is_shown, run_over};
use ix_outside::Sink;
use std::alloc::{AllocError, Global};

/// A file of a cube.
pub const CUBE: &str = "ISO-10303-21;
HEADER;
FILE_DESCRIPTION((''),'2;1');
FILE_NAME('','',(''),(''),'','','');
FILE_SCHEMA(('IFC4'));
ENDSEC;
DATA;
#1=IFCSIUNIT(*,.LENGTHUNIT.,.MILLI.,.METRE.);
#2=IFCUNITASSIGNMENT((#1));
#3=IFCCARTESIANPOINT((0.,0.,0.));
#4=IFCAXIS2PLACEMENT3D(#3,$,$);
#5=IFCGEOMETRICREPRESENTATIONCONTEXT($,'Model',3,1.E-5,#4,$);
#6=IFCPROJECT('1',$,'p',$,$,$,$,(#5),#2);
#7=IFCLOCALPLACEMENT($,#4);
#8=IFCDIRECTION((0.,0.,1.));
#9=IFCRECTANGLEPROFILEDEF(.AREA.,$,$,1000.,1000.);
#10=IFCEXTRUDEDAREASOLID(#9,$,#8,1000.);
#11=IFCSHAPEREPRESENTATION(#5,'Body','SweptSolid',(#10));
#12=IFCPRODUCTDEFINITIONSHAPE($,$,(#11));
#13=IFCWALL('2',$,'w',$,$,#7,#12,$,$);
ENDSEC;
END-ISO-10303-21;
";

/// The places of the cube's tokens that can stand unfinished at its end and are then none, each with the last place at which
/// the file may be cut for this.
static UNFINISHED: [(usize, usize); 53] = [
    (0, 11),
    (14, 19),
    (40, 41),
    (44, 48),
    (62, 63),
    (65, 66),
    (69, 70),
    (74, 75),
    (78, 79),
    (81, 82),
    (84, 85),
    (102, 107),
    (120, 123),
    (126, 127),
    (141, 152),
    (154, 160),
    (162, 168),
    (172, 173),
    (194, 195),
    (200, 201),
    (234, 235),
    (257, 258),
    (266, 267),
    (305, 311),
    (317, 319),
    (321, 322),
    (328, 329),
    (342, 344),
    (348, 350),
    (361, 362),
    (365, 366),
    (370, 371),
    (393, 394),
    (398, 399),
    (427, 428),
    (453, 458),
    (478, 479),
    (503, 504),
    (508, 509),
    (519, 520),
    (546, 547),
    (549, 554),
    (556, 567),
    (570, 571),
    (577, 578),
    (612, 613),
    (619, 620),
    (631, 633),
    (637, 639),
    (645, 646),
    (648, 649),
    (658, 663),
    (666, 681),
];

/// The place of the fault of the cube's file cut at a place: that of the token that is left unfinished, or the cut.
fn fault_place(cut: usize) -> usize {
    for (token, last) in &UNFINISHED {
        if *token < cut && cut <= *last {
            return *token;
        }
    }
    cut
}

/// Whether the file cut at a place is refused there, or not at all where it is whole.
fn is_cut_at(alloc: Global, cut: usize, is_whole: bool) -> Result<bool, AllocError> {
    let mut text = Vec::from_slice(alloc, CUBE.as_bytes())?;
    text.truncate(cut);
    let left = run_over(alloc, "convert", text, 4000, 200)?;
    let report = format!(in alloc; "refused Syntax at {}\n", fault_place(cut))?;
    let has_report = left.rep.held() == report.as_bytes();
    Ok(
        left.code == if is_whole { 0 } else { 2 }
            && is_whole != has_report
            && is_whole != left.out.held().is_empty(),
    )
}

/// Wherever a file is cut, its fault is found at the cut or at the token that it cuts, and nothing is written. Behind the
/// last mark nothing is left to cut.
#[test]
fn cuts_at_each_byte(rt: HostRuntime) {
    let size = CUBE.len();
    for cut in 0..=size {
        let is_whole = cut >= size.saturating_sub(1);
        assert!(rt; is_shown(is_cut_at(rt.alloc(), cut, is_whole)), "at {cut}");
    }
}

/// A line of the cube's file, what stands in its place, the number of the status, and a text of the page.
type Change = (&'static str, &'static str, u8, &'static str);

const CHANGES: [Change; 11] = [
    (
        "#8,1000.)",
        "#8,1.E30)",
        1,
        "\n#refused 13 E5 NumberTooLarge #10\n",
    ),
    (
        "#8,1000.)",
        "#8,1.E-400)",
        1,
        "\n#refused 13 E3 BadAttribute #10 4\n",
    ),
    (
        "#8,1000.)",
        "#8,1.E99999999999999999999)",
        1,
        "\n#refused 13 E5 NumberTooLarge #10\n",
    ),
    (
        "IFCLOCALPLACEMENT($,#4)",
        "IFCLOCALPLACEMENT(#7,#4)",
        1,
        "\n#refused 13 E8 TooDeep #7\n",
    ),
    (
        "IFCDIRECTION((0.,0.,1.))",
        "IFCDIRECTION((0.,0.,0.))",
        1,
        "\n#refused 13 E6 BadDirection #8\n",
    ),
    (
        "IFCAXIS2PLACEMENT3D(#3,$,$)",
        "IFCAXIS2PLACEMENT3D(#3,#8,#8)",
        1,
        "\n#refused 13 E6 BadDirection #4\n",
    ),
    (
        "IFCDIRECTION((0.,0.,1.))",
        "IFCDIRECTION((1.,0.,0.))",
        0,
        "\n#vol6 0\n",
    ),
    (
        "IFCPRODUCTDEFINITIONSHAPE($,$,(#11))",
        "IFCPRODUCTDEFINITIONSHAPE($,$,(#99))",
        1,
        "\n#refused 13 E4 Dangling #12 99\n",
    ),
    (
        "IFCSHAPEREPRESENTATION(#5,'Body',",
        "IFCSHAPEREPRESENTATION(#5,5,",
        1,
        "\n#refused 13 E3 BadAttribute #11 2\n",
    ),
    (
        "(#10));\n",
        "(#30));
#30=IFCMAPPEDITEM(#31,#32);#31=IFCREPRESENTATIONMAP(#4,#33);
#32=IFCCARTESIANTRANSFORMATIONOPERATOR3D($,$,#3,$,$);#33=IFCSHAPEREPRESENTATION(#5,'Body','M',(#30));
",
        1,
        "\n#refused 13 E8 TooDeep #30\n",
    ),
    (
        "IFCRECTANGLEPROFILEDEF(.AREA.,$,$,1000.,1000.);",
        "IFCARBITRARYCLOSEDPROFILEDEF(.AREA.,$,#30);#30=IFCPOLYLINE((#3,#3,#3));",
        1,
        "\n#refused 13 E3 BadAttribute #30 1\n",
    ),
];

fn is_named(alloc: Global, change: &Change) -> Result<bool, AllocError> {
    let (old, new, code, text) = *change;
    let left = run_over(alloc, "convert", edited(alloc, CUBE, old, new)?, 4000, 200)?;
    Ok(
        left.code == code
            && has(&left.page, text.as_bytes())
            && (code == 0) == has(left.rep.held(), b" converted 1 "),
    )
}

#[test]
fn names_what_is_malicious(rt: HostRuntime) {
    for change in CHANGES.iter() {
        assert!(rt; is_shown(is_named(rt.alloc(), change)), "{}", change.1);
    }
}
