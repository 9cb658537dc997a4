ghost use Rattle.std.specs.Prelude.{◌≡◌, length, map, All, IfOk};
ghost use Rattle.spec_num.specs.Words.{within_128_bits};
ghost use Rattle.spec_place.specs.Transforms.{IsFrame};
ghost use Rattle.spec_page.specs.World.{rounded_image, printed_volume};
ghost use Rattle.spec_headline.specs.Reduced.{IsCornerWithin};
ghost use Rattle.plane_core.specs.Views.{point_of};
ghost use Rattle.exact_mesh.specs.Meshes.{vector_of};
ghost use Rattle.world_print.specs.Ranges.{IsStep, IsOnGrid, HasItsCorners};
ghost use Rattle.world_print.specs.Elements.{element_of, IsMeshOf};

use crate::element::ElementMesh;
use crate::image::place_in;
use exact_mesh::{ExactMesh, sixfold};
use ifc_kinds::Kind;
use ix_place::Frame;
use plane_core::Corner;
use spec_place::Transform;
use std::alloc::{AllocError, Global};

/// The printed corners. The error is want of memory.
fn print_corners(
    alloc: Global,
    frame: &Transform,
    step: u32,
    corners: &[Corner],
) -> Result<Vec<[i128; 3]>, AllocError>
    requires frame { IsFrame frame.now }
    requires step { IsStep step }
    requires reach { All IsOnGrid corners.now }
    ensures { IfOk result (λ printed. map vector_of printed.items ≡ map (λ c. rounded_image frame.now step (point_of c)) corners.now) }
{
    let mut printed = Vec::new(alloc);
    for corner in corners {
        printed.push(place_in(frame, step, corner))?;
    }
    Ok(printed)
}

/// The mesh of the element of a number and a kind, with its world frame, on the grid of a step of 1 to 10,000 micrometres:
/// its corners are printed, and its volume is that of the printed corners, or `None` exactly where it passes 128 bits. No
/// coordinate of a corner has a size above 2^20 steps, and each corner of each face is one of the mesh.
///
/// # Errors
///
/// Want of memory.
pub fn finish(
    alloc: Global,
    number: u64,
    kind: Kind,
    frame: Frame,
    step: u32,
    mesh: ExactMesh,
) -> Result<ElementMesh, AllocError>
    requires step { IsStep step }
    requires reach { All IsOnGrid mesh.corners.items }
    requires places { HasItsCorners mesh }
    ensures kept { IfOk result (IsMeshOf number kind frame step mesh) }
    ensures printed { IfOk result (λ m. map vector_of m.printed.items ≡ map (λ c. rounded_image frame step (point_of c)) mesh.corners.items) }
    ensures rounded { IfOk result (λ m. All (λ c. c.printed ≡ rounded_image frame step c.exact) (element_of m).corners) }
    ensures frame { IfOk result (λ m. IsFrame (element_of m).frame) }
    ensures corners { IfOk result (λ m. All IsCornerWithin (element_of m).corners) }
    ensures volume { IfOk result (λ m. m.six ≡ within_128_bits (printed_volume (element_of m))) }
{
    let printed = print_corners(alloc, &frame.transform, step, &mesh.corners)?;
    let six = sixfold(&printed, &mesh.faces);
    Ok(ElementMesh {
        number,
        kind,
        frame,
        step,
        mesh,
        printed,
        six,
    })
}
