ghost use Rattle.std.specs.Prelude.{◌+◌, ◌-◌, ◌≤◌, ◌^◌, length, IfOk};
ghost use Rattle.spec_check.specs.Limits.{IsPageGrid, IsElementWithin};
ghost use Rattle.obj_file.specs.Items.{element_of};
ghost use Rattle.mesh_check.specs.Outcomes.{IsOutcome};

use crate::images::first_far;
use crate::volumes::is_volume;
use edge_balance::unbalanced;
use face_check::{first_unsound, is_flat};
use obj_file::ObjElement;
use spec_check::Verdict;
use std::alloc::{AllocError, Global};

/// What is found of an element on a grid of so many micrometres, with so many faces of the page before it.
///
/// # Errors
///
/// Want of memory.
pub(crate) fn element_verdict(
    alloc: Global,
    grid: u32,
    faces: usize,
    element: &ObjElement,
) -> Result<Verdict, AllocError>
    requires grid { IsPageGrid grid }
    requires kept { IsElementWithin (element_of element.now) }
    requires few_corners { element.now.before + length element.now.corners.items ≤ 2 ^ 64 - 1 }
    requires few_faces { faces + length element.now.faces.items ≤ 2 ^ 64 - 1 }
    ensures { IfOk result (IsOutcome grid element.now.before faces (element_of element.now)) }
{
    let far = first_far(&element.frame, grid, &element.corners, &element.printed);
    if let Some(place) = far {
        let v = element.before + place + 1;
        return Ok(Verdict::FarCorner { v });
    }
    if let Some(place) = first_unsound(&element.corners, &element.faces) {
        let face = faces + place + 1;
        if is_flat(&element.corners, &element.faces[place]) {
            return Ok(Verdict::NotConvex { face });
        }
        return Ok(Verdict::OffPlane { face });
    }
    if let Some((from, to)) = unbalanced(alloc, &element.faces)? {
        let u = element.before + from + 1;
        let v = element.before + to + 1;
        return Ok(Verdict::Unbalanced { u, v });
    }
    if !is_volume(element.six, &element.printed, &element.faces) {
        return Ok(Verdict::WrongVolume {
            element: element.number,
        });
    }
    Ok(Verdict::Sound)
}
