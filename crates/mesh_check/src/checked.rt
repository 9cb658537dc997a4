ghost use Rattle.std.specs.Prelude.{IfOk};
ghost use Rattle.spec_check.specs.Verdicts.{IsVerdict, elements_in};
ghost use Rattle.obj_file.specs.Files.{items_of, IsKeptFile};

use crate::elements::element_verdict;
use obj_file::{ObjFile, ObjItem};
use spec_check::Verdict;
use std::alloc::{AllocError, Global};

/// What is found of a page: the first fault over its elements in order, or that it is sound (rules of this project).
///
/// # Errors
///
/// Want of memory.
pub fn check(alloc: Global, file: &ObjFile) -> Result<Verdict, AllocError>
    requires { IsKeptFile file.now }
    ensures { IfOk result (IsVerdict file.now.grid (elements_in (items_of file.now))) }
{
    let mut faces = 0;
    for item in &file.items {
        if let ObjItem::Printed(element) = item {
            match element_verdict(alloc, file.grid, faces, element)? {
                Verdict::Sound => faces += element.faces.len(),
                verdict => return Ok(verdict),
            }
        }
    }
    Ok(Verdict::Sound)
}
