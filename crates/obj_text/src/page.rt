ghost use Rattle.std.specs.Prelude.{◌≡◌, ◌++◌};
ghost use Rattle.spec_page.specs.Page.{page_head, page_end};
ghost use Rattle.world_print.specs.Appended.{IsAppended};

use crate::numbers::put_number_line;
use std::alloc::AllocError;

/// Appends the first two lines of a page, on a grid of so many micrometres.
///
/// # Errors
///
/// Want of memory.
pub fn write_head(page: &mut Vec<u8>, grid: u32) -> Result<(), AllocError>
    ensures { IsAppended result page.old.items page.new.items (page_head grid) }
{
    put_number_line(page, b"# ifcexact 1\n# grid ", u64::from(grid))
}

/// Appends the last line of a page.
///
/// # Errors
///
/// Want of memory.
pub fn write_end(page: &mut Vec<u8>) -> Result<(), AllocError>
    ensures { IsAppended result page.old.items page.new.items page_end }
{
    page.extend_from_slice(b"# end\n")
}
