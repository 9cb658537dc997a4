use std::alloc::{AllocError, Global};
use step_print::print_file;
use step_text::parse_file;

const TEXT: &str = "ISO-10303-21;HEADER;FILE_SCHEMA(('IFC4'));ENDSEC;DATA;
#01 = ifcA(1.e5 , 'a b',.t.) /* c */;ENDSEC;END-ISO-10303-21;";

/// What is printed of the text.
const PAGE: &str = "ISO-10303-21;
HEADER;
FILE_SCHEMA(('IFC4'));
ENDSEC;
DATA;
#01=IFCA(1.e5,'a b',.t.);
ENDSEC;
END-ISO-10303-21;
";

/// What is printed of a file, and nothing where a text is none.
fn printed(alloc: Global, text: &str) -> Result<Vec<u8>, AllocError> {
    match parse_file(alloc, text.as_bytes()) {
        Ok(file) => print_file(alloc, &file),
        Err(_) => Ok(Vec::new(alloc)),
    }
}

/// Whether this page is printed of a text.
fn prints(alloc: Global, text: &str, page: &str) -> bool {
    match printed(alloc, text) {
        Ok(found) => found.as_slice() == page.as_bytes(),
        Err(AllocError) => false,
    }
}

#[test]
fn prints_what_it_reads(rt: HostRuntime) {
    for text in [TEXT, PAGE] {
        assert!(rt; prints(rt.alloc(), text, PAGE), "of {text}");
    }
}
