ghost use Rattle.std.specs.Prelude.{◌<◌, ◌^◌, ℕ, List, IfOk, IfErr};
ghost use Rattle.spec_page.specs.Items.{Item};
ghost use Rattle.spec_check.specs.Grammar.{IsPageText};
ghost use Rattle.obj_file.specs.Files.{items_of, IsKeptFile};
ghost use Rattle.obj_read.specs.Answers.{HasLine, IsReadOrWants};
ghost use Rattle.obj_read.specs.States.{corners_of};
ghost use Rattle.obj_read.specs.Readers.{state_of, IsNext};

use crate::reader::Reader;
use crate::split::next_line;
use obj_file::{ObjFault, ObjFile};
use obj_lines::read_line;
use std::alloc::{AllocError, Global};

/// What is read with the line of this text more, or `None` exactly where no such line may follow.
fn read_next(alloc: Global, reader: Reader, text: &[u8]) -> Result<Option<Reader>, AllocError>
    requires { corners_of (state_of reader) < 2 ^ 64 }
    ensures { IfOk result (IsNext (state_of reader) text.now) }
{
    match read_line(alloc, text)? {
        Some(line) => reader.take(alloc, line),
        None => Ok(None),
    }
}

/// The page of a text (a form of this project).
///
/// # Errors
///
/// [`ObjFault::Line`] exactly where the text is no page within the limits, with its first line that is not allowed;
/// want of memory.
pub fn read_obj(alloc: Global, bytes: &[u8]) -> Result<ObjFile, ObjFault>
    ensures reads { IfOk result (λ f. IsPageText bytes.now f.grid (items_of f)) }
    ensures kept { IfOk result IsKeptFile }
    ensures sole { (grid : ℕ) (items : List Item) → IsPageText bytes.now grid items → IsReadOrWants grid items result }
    ensures refuses { IfErr result (HasLine bytes.now) }
{
    let mut rest = bytes;
    let mut reader = Reader::Start;
    let mut lines = 0;
    'lines: while let Some((line, more)) = next_line(rest) {
        match read_next(alloc, reader, line) {
            Ok(Some(next)) => reader = next,
            Ok(None) => return Err(ObjFault::Line { n: lines + 1 }),
            Err(_) => return Err(ObjFault::NoMemory),
        }
        rest = more;
        lines += 1;
    }
    if !rest.is_empty() {
        return Err(ObjFault::Line { n: lines + 1 });
    }
    match reader.into_page() {
        Some(page) => Ok(ObjFile {
            grid: page.grid,
            items: page.items,
        }),
        None => Err(ObjFault::Line { n: lines + 1 }),
    }
}
