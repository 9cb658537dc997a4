ghost use Rattle.std.specs.Prelude.{◌+◌, ◌<◌, ◌^◌, map, IfOk};
ghost use Rattle.spec_headline.specs.Headline.{IsPrintOf};
ghost use Rattle.grid_solid.specs.Bodies.{body_of};
ghost use Rattle.grid_solid.specs.Counts.{body_plane_count};
ghost use Rattle.exact_mesh.specs.Meshes.{face_of};
ghost use Rattle.exact_mesh.specs.Order.{AreInFirstUse};
ghost use Rattle.world_print.specs.Ranges.{IsStep};
ghost use Rattle.world_print.specs.Elements.{element_of, IsMeshOf};

use crate::surface::surface_mesh;
use grid_solid::GridSolid;
use ifc_kinds::Kind;
use ix_place::Frame;
use std::alloc::{AllocError, Global};
use world_print::{ElementMesh, finish};

/// The mesh of the element of a number and a kind, with its world frame, on the grid of a step of 1 to 10,000 micrometres,
/// ready to be written. A point on exactly one plane of the element lies on exactly one face, turned outwards, if the
/// element's meaning differs across that plane there, and on none otherwise; each directed edge stands as often as its
/// reverse; corners are printed in the frame, rounded, and the volume is that of the printed mesh. Corners stand in the
/// order of their first use, over the faces in order and round each face. The element has fewer than 2^31 - 6 planes, of
/// which each triangle counts for four, and each half-space for one.
///
/// # Errors
///
/// Want of memory.
pub fn element_mesh(
    alloc: Global,
    solid: &GridSolid,
    number: u64,
    kind: Kind,
    frame: Frame,
    step: u32,
) -> Result<ElementMesh, AllocError>
    requires step { IsStep step }
    requires room { 6 + body_plane_count (body_of solid.now) < 2 ^ 31 }
    ensures print { IfOk result (λ m. IsPrintOf (body_of solid.now) step (element_of m)) }
    ensures kept { IfOk result (λ m. IsMeshOf number kind frame step m.mesh m) }
    ensures order { IfOk result (λ m. AreInFirstUse m.mesh.corners.items (map face_of m.mesh.faces.items)) }
{
    let mesh = surface_mesh(alloc, solid)?;
    finish(alloc, number, kind, frame, step, mesh)
}
