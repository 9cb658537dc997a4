ghost use Rattle.std.specs.Prelude.{◌≡◌, ◌<◌, length, All, IfOk, OnOk};
ghost use Rattle.world_print.specs.Ranges.{IsOnGrid, HasItsCorners};

use exact_mesh::{ExactMesh, MeshFace};
use plane_core::Corner;
use std::alloc::{AllocError, Global};

/// The corner at whole grid steps.
pub(crate) fn corner_at(x: i16, y: i16, z: i16) -> Corner
    ensures { IsOnGrid result }
{
    Corner {
        x: i128::from(x),
        y: i128::from(y),
        z: i128::from(z),
        w: 1,
    }
}

fn push_face(alloc: Global, faces: &mut Vec<MeshFace>, places: [usize; 3]) -> Result<(), AllocError>
    requires old { All (λ f. All (λ i. i < 4) f.corners.items) faces.old.items }
    requires new { All (λ i. i < 4) places }
    ensures { OnOk result (All (λ f. All (λ i. i < 4) f.corners.items) faces.new.items) }
{
    // The planes are of no matter here.
    faces.push(MeshFace {
        plane: [0, 0, 1, 0],
        edges: Vec::new(alloc),
        corners: Vec::from_array(alloc, places)?,
    })?;
    Ok(())
}

fn four_faces(alloc: Global) -> Result<Vec<MeshFace>, AllocError>
    ensures { IfOk result (λ faces. All (λ f. All (λ i. i < 4) f.corners.items) faces.items) }
{
    let mut faces = Vec::new(alloc);
    push_face(alloc, &mut faces, [0, 2, 1])?;
    push_face(alloc, &mut faces, [0, 1, 3])?;
    push_face(alloc, &mut faces, [0, 3, 2])?;
    push_face(alloc, &mut faces, [1, 2, 3])?;
    Ok(faces)
}

fn four_corners(alloc: Global, height: i16) -> Result<Vec<Corner>, AllocError>
    ensures reach { IfOk result (λ corners. All IsOnGrid corners.items) }
    ensures count { IfOk result (λ corners. length corners.items ≡ 4) }
{
    let corners = [
        corner_at(0, 0, 0),
        corner_at(5000, 0, 0),
        corner_at(0, 200, 0),
        corner_at(0, 0, height),
    ];
    Ok(Vec::from_array(alloc, corners)?)
}

/// A corner of a wall, 5000 by 200 grid steps and as high as is told.
pub(crate) fn tetrahedron(alloc: Global, height: i16) -> Result<ExactMesh, AllocError>
    ensures reach { IfOk result (λ m. All IsOnGrid m.corners.items) }
    ensures places { IfOk result HasItsCorners }
{
    Ok(ExactMesh {
        corners: four_corners(alloc, height)?,
        faces: four_faces(alloc)?,
    })
}
