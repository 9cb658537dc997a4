use ix_convert::convert_run;
use ix_outside::{MemSink, MemSource, Sink, Source};
use mesh_out::MeshWriter;
use std::alloc::{AllocError, Global};

/// A file of a cube, but for its project, its wall and its end.
const HEAD: &str = "ISO-10303-21;HEADER;FILE_SCHEMA(('IFC4'));ENDSEC;DATA;
#1=IFCSIUNIT(*,.LENGTHUNIT.,.MILLI.,.METRE.);#2=IFCUNITASSIGNMENT((#1));#3=IFCCARTESIANPOINT((0.,0.,0.));
#4=IFCAXIS2PLACEMENT3D(#3,$,$);#7=IFCLOCALPLACEMENT($,#4);#8=IFCDIRECTION((0.,0.,1.));
#9=IFCRECTANGLEPROFILEDEF(.AREA.,$,$,1000.,1000.);#10=IFCEXTRUDEDAREASOLID(#9,$,#8,1000.);";

const PROJECT: &str = "#6=IFCPROJECT('1',$,'p',$,$,$,$,$,#2);";

const WALL: &str =
    "#11=IFCSHAPEREPRESENTATION($,'Body',$,(#10));#12=IFCPRODUCTDEFINITIONSHAPE($,$,(#11));
#13=IFCWALL('2',$,'w',$,$,#7,#12,$,$);";

const END: &str = "ENDSEC;END-ISO-10303-21;";

/// The file of a wall, by its parts.
pub const WALL_FILE: &str = "HEAD + PROJECT + WALL + END";

/// A part that stands above under its name, or the part itself.
fn part_text(part: &str) -> &str {
    match part {
        "HEAD" => HEAD,
        "PROJECT" => PROJECT,
        "WALL" => WALL,
        "END" => END,
        _ => part,
    }
}

/// A text of these parts, between which ` + ` stands.
pub fn joined(alloc: Global, parts: &str) -> Result<Vec<u8>, AllocError> {
    let mut text = Vec::new(alloc);
    for part in parts.split(" + ") {
        text.extend_from_slice(part_text(part).as_bytes())?;
    }
    Ok(text)
}

/// The words of a line.
pub fn words(alloc: Global, line: &str) -> Result<Vec<String>, AllocError> {
    let mut words = Vec::new(alloc);
    for word in line.split(' ') {
        words.push(String::from_str(alloc, word)?)?;
    }
    Ok(words)
}

/// How a run ended: the number of its status, and its page.
#[derive(Drop)]
pub struct Ended {
    pub code: u8,
    pub page: Vec<u8>,
}

/// Runs a job over a source into these sinks.
pub fn run_into<S: Source, O: Sink, R: Sink>(
    alloc: Global,
    line: &str,
    source: &mut S,
    writers: Vec<Box<dyn MeshWriter>>,
    out: &mut O,
    rep: &mut R,
) -> Result<Ended, AllocError> {
    let words = words(alloc, line)?;
    let mut page = Vec::new(alloc);
    let status = convert_run(alloc, &words, source, out, rep, writers, &mut page);
    Ok(Ended {
        code: status.code(),
        page,
    })
}

/// What a run into memory left.
#[derive(Drop)]
pub struct Left {
    pub code: u8,
    pub out: MemSink,
    pub rep: MemSink,
    pub page: Vec<u8>,
}

impl Left {
    /// Whether the run ended with the number of a status, and with a report.
    pub fn ended(&self, code: u8, report: &[u8]) -> bool {
        self.code == code && self.rep.held() == report
    }

    /// Whether the page was put whole, and nothing else.
    pub fn is_put(&self) -> bool {
        self.out.held() == self.page.as_slice()
    }
}

/// Runs a job over a source with these writers, and with room for so many bytes of output and of report.
pub fn run_with<S: Source>(
    alloc: Global,
    line: &str,
    source: &mut S,
    writers: Vec<Box<dyn MeshWriter>>,
    room: usize,
    report_room: usize,
) -> Result<Left, AllocError> {
    let mut out = MemSink::new(alloc, room)?;
    let mut rep = MemSink::new(alloc, report_room)?;
    let ended = run_into(alloc, line, source, writers, &mut out, &mut rep)?;
    Ok(Left {
        code: ended.code,
        out,
        rep,
        page: ended.page,
    })
}

/// Runs a job over a text, with no writers.
pub fn run_over(
    alloc: Global,
    line: &str,
    text: Vec<u8>,
    room: usize,
    report_room: usize,
) -> Result<Left, AllocError> {
    let mut source = MemSource::new(text);
    run_with(alloc, line, &mut source, Vec::new(alloc), room, report_room)
}

/// Whether a try was made, and what it was to show holds.
pub fn is_shown(shown: Result<bool, AllocError>) -> bool {
    match shown {
        Ok(holds) => holds,
        Err(AllocError) => false,
    }
}

/// Whether a text stands in a page.
pub fn has(page: &[u8], text: &[u8]) -> bool {
    if text.is_empty() {
        return true;
    }
    page.windows(text.len()).any(|part| part == text)
}

/// A sample with one text in place of another, which it holds.
pub fn edited(alloc: Global, sample: &str, old: &str, new: &str) -> Result<Vec<u8>, AllocError> {
    let (before, behind) = sample.split_once(old).unwrap_or((sample, ""));
    let mut text = Vec::from_slice(alloc, before.as_bytes())?;
    text.extend_from_slice(new.as_bytes())?;
    text.extend_from_slice(behind.as_bytes())?;
    Ok(text)
}
