use ifc_kinds::{Kind, is_element};
use std::alloc::{AllocError, Global};

/// The keywords of the building elements, and the other keywords that are read.
const ELEMENTS: &[&str] = &[
    "IFCBEAM",
    "IFCBEAMSTANDARDCASE",
    "IFCBUILDINGELEMENTPART",
    "IFCBUILDINGELEMENTPROXY",
    "IFCCHIMNEY",
    "IFCCOLUMN",
    "IFCCOLUMNSTANDARDCASE",
    "IFCCOVERING",
    "IFCCURTAINWALL",
    "IFCDOOR",
    "IFCDOORSTANDARDCASE",
    "IFCELEMENTASSEMBLY",
    "IFCFOOTING",
    "IFCFURNISHINGELEMENT",
    "IFCFURNITURE",
    "IFCMEMBER",
    "IFCMEMBERSTANDARDCASE",
    "IFCPILE",
    "IFCPLATE",
    "IFCPLATESTANDARDCASE",
    "IFCRAILING",
    "IFCRAMP",
    "IFCRAMPFLIGHT",
    "IFCROOF",
    "IFCSHADINGDEVICE",
    "IFCSLAB",
    "IFCSLABELEMENTEDCASE",
    "IFCSLABSTANDARDCASE",
    "IFCSTAIR",
    "IFCSTAIRFLIGHT",
    "IFCWALL",
    "IFCWALLELEMENTEDCASE",
    "IFCWALLSTANDARDCASE",
    "IFCWINDOW",
    "IFCWINDOWSTANDARDCASE",
];

const OTHERS: &[&str] = &[
    "IFCOPENINGELEMENT",
    "IFCOPENINGSTANDARDCASE",
    "IFCRELVOIDSELEMENT",
    "IFCPRODUCTDEFINITIONSHAPE",
    "IFCSHAPEREPRESENTATION",
    "IFCLOCALPLACEMENT",
    "IFCPROJECT",
    "IFCUNITASSIGNMENT",
    "IFCSIUNIT",
    "IFCCONVERSIONBASEDUNIT",
    "IFCMEASUREWITHUNIT",
    "IFCCARTESIANPOINT",
    "IFCDIRECTION",
    "IFCAXIS2PLACEMENT3D",
    "IFCAXIS2PLACEMENT2D",
    "IFCCARTESIANTRANSFORMATIONOPERATOR3D",
    "IFCCARTESIANTRANSFORMATIONOPERATOR3DNONUNIFORM",
    "IFCEXTRUDEDAREASOLID",
    "IFCBLOCK",
    "IFCFACETEDBREP",
    "IFCFACETEDBREPWITHVOIDS",
    "IFCCLOSEDSHELL",
    "IFCFACE",
    "IFCFACEBOUND",
    "IFCFACEOUTERBOUND",
    "IFCPOLYLOOP",
    "IFCHALFSPACESOLID",
    "IFCBOXEDHALFSPACE",
    "IFCPOLYGONALBOUNDEDHALFSPACE",
    "IFCPLANE",
    "IFCBOOLEANRESULT",
    "IFCBOOLEANCLIPPINGRESULT",
    "IFCCSGSOLID",
    "IFCMAPPEDITEM",
    "IFCREPRESENTATIONMAP",
    "IFCARBITRARYCLOSEDPROFILEDEF",
    "IFCARBITRARYPROFILEDEFWITHVOIDS",
    "IFCRECTANGLEPROFILEDEF",
    "IFCRECTANGLEHOLLOWPROFILEDEF",
    "IFCISHAPEPROFILEDEF",
    "IFCPOLYLINE",
    "IFCINDEXEDPOLYCURVE",
    "IFCCARTESIANPOINTLIST2D",
];

/// The word in small letters.
fn small_letters(alloc: Global, word: &str) -> Result<Vec<u8>, AllocError> {
    let mut small = Vec::new(alloc);
    for byte in word.as_bytes() {
        small.push(byte.to_ascii_lowercase())?;
    }
    Ok(small)
}

/// Whether a word in either letter case is the keyword of a building element, or of another thing.
fn is_keyword(alloc: Global, word: &str, of_element: bool) -> Result<bool, AllocError> {
    let small = small_letters(alloc, word)?;
    let Some(kind) = Kind::of(word.as_bytes()) else {
        return Ok(false);
    };
    Ok(
        Kind::of(small.as_slice()) == Some(kind)
            && kind.keyword() == word
            && is_element(kind) == of_element,
    )
}

#[test]
fn finds_every_keyword(rt: HostRuntime) -> Result<(), AllocError> {
    for word in ELEMENTS {
        assert!(rt; is_keyword(rt.alloc(), word, true)?, "at {word}");
    }
    for word in OTHERS {
        assert!(rt; is_keyword(rt.alloc(), word, false)?, "at {word}");
    }
    Ok(())
}

const NO_KEYWORDS: [&str; 6] = [
    "IFCCIRCLEPROFILEDEF",
    "IFCWAL",
    "IFCWALLS",
    "WALL",
    "!IFCWALL",
    "",
];

#[test]
fn finds_no_other_word(rt: HostRuntime) {
    for word in &NO_KEYWORDS {
        assert!(rt; Kind::of(word.as_bytes()).is_none(), "at {word}");
    }
}
