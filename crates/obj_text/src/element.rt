ghost use Rattle.std.specs.Prelude.{◌≡◌, ◌<◌, ◌+◌, ◌^◌, ◌++◌, length, Some, codes};
ghost use Rattle.spec_page.specs.Items.{Printed};
ghost use Rattle.spec_page.specs.Lines.{frame_line, volume_line, number_line, element_body};
ghost use Rattle.spec_page.specs.Page.{item_lines};
ghost use Rattle.world_print.specs.Elements.{element_of};
ghost use Rattle.world_print.specs.Appended.{IsAppended};

use crate::faces::{put_corners, put_faces};
use crate::lines::put_frame;
use crate::numbers::{put_number_line, put_spaced};
use spec_place::Transform;
use std::alloc::AllocError;
use world_print::ElementMesh;

/// Appends the sixfold volume, or that there is none.
fn put_volume(page: &mut Vec<u8>, six: Option<i128>) -> Result<(), AllocError>
    ensures { IsAppended result page.old.items page.new.items (volume_line six) }
{
    match six {
        None => page.extend_from_slice(b"#vol6 none\n"),
        Some(six) => put_sixfold(page, six),
    }
}

fn put_sixfold(page: &mut Vec<u8>, six: i128) -> Result<(), AllocError>
    ensures { IsAppended result page.old.items page.new.items (volume_line (Some six)) }
{
    page.extend_from_slice(b"#vol6")?;
    put_spaced(page, six)?;
    page.push(b'\n')?;
    Ok(())
}

/// Appends the first lines of an element's block.
fn put_head(page: &mut Vec<u8>, number: u64, frame: &Transform) -> Result<(), AllocError>
    ensures { IsAppended result page.old.items page.new.items (number_line (codes "o ") number ++ frame_line frame.now) }
{
    put_number_line(page, b"o ", number)?;
    put_frame(page, frame)
}

/// Appends the corners, the faces and the volume of a mesh.
fn put_mesh(page: &mut Vec<u8>, mesh: &ElementMesh, before: u128) -> Result<(), AllocError>
    requires { before + length mesh.now.mesh.corners.items < 2 ^ 128 }
    ensures { IsAppended result page.old.items page.new.items (element_body before (element_of mesh.now)) }
{
    put_corners(page, &mesh.mesh.corners, &mesh.printed)?;
    put_faces(page, before, &mesh.mesh.faces)?;
    put_volume(page, mesh.six)
}

/// Appends the block of an element: its number, its frame, its corners, exact in grid steps of the element's frame and printed
/// in metres of the world, its faces with their planes, and its volume. So many corners stand before it on the page.
///
/// # Errors
///
/// Want of memory.
pub fn write_element(page: &mut Vec<u8>, mesh: &ElementMesh, before: u128) -> Result<(), AllocError>
    requires { before + length mesh.now.mesh.corners.items < 2 ^ 128 }
    ensures { IsAppended result page.old.items page.new.items (item_lines before (Printed (element_of mesh.now))) }
{
    put_head(page, mesh.number, &mesh.frame.transform)?;
    put_mesh(page, mesh, before)
}
