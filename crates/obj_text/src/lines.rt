ghost use Rattle.std.specs.Prelude.{◌≡◌, ◌++◌};
ghost use Rattle.spec_page.specs.Lines.{plane_line, frame_line, exact_line, printed_line, corner_lines};
ghost use Rattle.world_print.specs.Appended.{IsAppended};

use crate::numbers::{put_spaced, put_spaced_metres, put_three, put_vector};
use spec_page::Corner;
use spec_place::Transform;
use spec_space::{Plane, Point, Vector};
use std::alloc::AllocError;

/// Appends the line of a plane behind its sign.
pub(crate) fn put_plane(page: &mut Vec<u8>, sign: &[u8], plane: &Plane) -> Result<(), AllocError>
    ensures { IsAppended result page.old.items page.new.items (plane_line sign.now plane.now) }
{
    page.extend_from_slice(sign)?;
    put_three(page, plane.a, plane.b, plane.c)?;
    put_spaced(page, plane.d)?;
    page.push(b'\n')?;
    Ok(())
}

pub(crate) fn put_frame(page: &mut Vec<u8>, frame: &Transform) -> Result<(), AllocError>
    ensures { IsAppended result page.old.items page.new.items (frame_line frame.now) }
{
    page.extend_from_slice(b"#frame")?;
    put_vector(page, &frame.x)?;
    put_vector(page, &frame.y)?;
    put_vector(page, &frame.z)?;
    put_vector(page, &frame.off)?;
    page.push(b'\n')?;
    Ok(())
}

fn put_exact(page: &mut Vec<u8>, point: &Point) -> Result<(), AllocError>
    ensures { IsAppended result page.old.items page.new.items (exact_line point.now) }
{
    page.extend_from_slice(b"#c")?;
    put_three(page, point.x, point.y, point.z)?;
    put_spaced(page, point.w)?;
    page.push(b'\n')?;
    Ok(())
}

fn put_printed(page: &mut Vec<u8>, printed: &Vector) -> Result<(), AllocError>
    ensures { IsAppended result page.old.items page.new.items (printed_line printed.now) }
{
    page.push(b'v')?;
    put_spaced_metres(page, printed.x)?;
    put_spaced_metres(page, printed.y)?;
    put_spaced_metres(page, printed.z)?;
    page.push(b'\n')?;
    Ok(())
}

pub(crate) fn put_corner(page: &mut Vec<u8>, corner: &Corner) -> Result<(), AllocError>
    ensures { IsAppended result page.old.items page.new.items (corner_lines corner.now) }
{
    put_exact(page, &corner.exact)?;
    put_printed(page, &corner.printed)
}
