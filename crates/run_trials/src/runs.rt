use crate::samples::{has, is_shown, joined, run_over};
use ix_outside::Sink;
use std::alloc::{AllocError, Global};

/// A run over a file of these parts: its words, the number of its status, its report, and texts that stand on its page, with
/// ` & ` between them.
struct Case {
    words: &'static str,
    parts: &'static str,
    code: u8,
    report: &'static str,
    texts: &'static str,
}

const USAGE: &str =
    "usage: ifcexact convert [--grid=N] [--only=N] [--format=NAME] / check / gen --count=N [--run]\n";

/// A file of four more elements than its wall.
const NAMED: &str = "HEAD + PROJECT + WALL + \
#14=IFCSLAB('3',$,$,$,$,#7,$,$,$);#15=IFCBEAM('4',$,$,$,$,#7,#99,$,$);
#16=IFCWALL('5',$,$,$,$,#7,#12,$,$);#17=IFCSPACE('6',$,$,$,$,#7,#12,$,$); + END";

/// Names each element; refuses files for the first reason in order, before anything is written; reads words.
const CASES: [Case; 11] = [
    Case {
        words: "convert",
        parts: NAMED,
        code: 1,
        report: "elements 4 converted 2 skipped 1 refused 1 corners 16 faces 16
#refused 15 E4 Dangling #15 99\n",
        // The second wall's corners have the numbers 9 to 16.
        texts: "# ifcexact 1\n# grid 1000\no 13\n#frame 1000000000 0 0 & \
            \n#vol6 6000000000000000000\n#skipped 14\n#refused 15 E4 Dangling #15 99\no 16\n & \
            \n#vol6 6000000000000000000\n# end\n & \nf 9  &  16",
    },
    Case {
        words: "convert --grid=10 --only=16",
        parts: NAMED,
        code: 0,
        report: "elements 1 converted 1 skipped 0 refused 0 corners 8 faces 8\n",
        texts: "# ifcexact 1\n# grid 10\no 16\n",
    },
    Case {
        words: "convert",
        parts: "HEAD + #13=IFCW",
        code: 2,
        report: "refused Syntax at 346\n",
        texts: "",
    },
    // The number stands twice, and no project stands: the first is named.
    Case {
        words: "convert",
        parts: "HEAD + #9=IFCWALL('2',$,'w',$,$,#7,$,$,$); + END",
        code: 2,
        report: "refused DuplicateNumber 9 at 248 and 338\n",
        texts: "",
    },
    Case {
        words: "convert",
        parts: "HEAD + WALL + END",
        code: 2,
        report: "refused NoProject\n",
        texts: "",
    },
    Case {
        words: "convert",
        parts: "HEAD + #5=IFCUNITASSIGNMENT(());#6=IFCPROJECT('1',$,'p',$,$,$,$,$,#5); + END",
        code: 2,
        report: "refused NoLengthUnit\n",
        texts: "",
    },
    Case {
        words: "convert",
        parts: "ISO-10303-21;HEADER;FILE_SCHEMA(('IFC4X3'));ENDSEC;DATA;ENDSEC;END-ISO-10303-21;",
        code: 2,
        report: "refused Schema\n",
        texts: "",
    },
    Case {
        words: "check",
        parts: "# ifcexact 1\n# grid 0\n# end\n",
        code: 2,
        report: "refused Line 2\n",
        texts: "",
    },
    Case {
        words: "check",
        parts: "# ifcexact 1\n# grid 7\n#skipped 5\n# end\n",
        code: 0,
        report: "sound\n",
        texts: "",
    },
    Case {
        words: "convert --grid=0",
        parts: "HEAD + PROJECT + WALL + END",
        code: 6,
        report: USAGE,
        texts: "",
    },
    // No writer is handed in.
    Case {
        words: "convert --format=off",
        parts: "HEAD + PROJECT + WALL + END",
        code: 6,
        report: USAGE,
        texts: "",
    },
];

fn has_all(page: &[u8], texts: &str) -> bool {
    for text in texts.split(" & ") {
        if !has(page, text.as_bytes()) {
            return false;
        }
    }
    true
}

fn holds(alloc: Global, case: &Case) -> Result<bool, AllocError> {
    let text = joined(alloc, case.parts)?;
    let left = run_over(alloc, case.words, text, 40_000, 400)?;
    let is_empty = left.page.is_empty();
    Ok(
        left.ended(case.code, case.report.as_bytes())
            && left.is_put()
            && case.texts.is_empty() == is_empty
            && has_all(&left.page, case.texts),
    )
}

#[test]
fn answers_by_words_and_bytes(rt: HostRuntime) {
    for (at, case) in CASES.iter().enumerate() {
        assert!(rt; is_shown(holds(rt.alloc(), case)), "case {at}");
    }
}
