ghost use Rattle.std.specs.Prelude.{◌≡◌, map, IfOk};
ghost use Rattle.exact_mesh.specs.Meshes.{face_of};
ghost use Rattle.world_print.specs.Elements.{mesh_of};

use crate::element::ElementMesh;
use exact_mesh::{ExactMesh, MeshFace};
use std::alloc::{AllocError, Global};

/// The same face in room of its own. The error is want of memory.
fn copied_face(alloc: Global, face: &MeshFace) -> Result<MeshFace, AllocError>
    ensures { IfOk result (λ copy. face_of copy ≡ face_of face.now) }
{
    let mut edges = Vec::new(alloc);
    edges.extend_from_slice(&face.edges)?;
    let mut corners = Vec::new(alloc);
    corners.extend_from_slice(&face.corners)?;
    Ok(MeshFace {
        plane: face.plane,
        edges,
        corners,
    })
}

/// The same faces in room of their own. The error is want of memory.
fn copied_faces(alloc: Global, faces: &[MeshFace]) -> Result<Vec<MeshFace>, AllocError>
    ensures { IfOk result (λ copies. map face_of copies.items ≡ map face_of faces.now) }
{
    let mut copies = Vec::new(alloc);
    for face in faces {
        copies.push(copied_face(alloc, face)?)?;
    }
    Ok(copies)
}

/// The same mesh in room of its own. The error is want of memory.
fn copied_mesh(alloc: Global, mesh: &ExactMesh) -> Result<ExactMesh, AllocError>
    ensures corners { IfOk result (λ copy. copy.corners.items ≡ mesh.now.corners.items) }
    ensures faces { IfOk result (λ copy. map face_of copy.faces.items ≡ map face_of mesh.now.faces.items) }
{
    let mut corners = Vec::new(alloc);
    corners.extend_from_slice(&mesh.corners)?;
    let faces = copied_faces(alloc, &mesh.faces)?;
    Ok(ExactMesh { corners, faces })
}

impl ElementMesh {
    /// The same mesh in room of its own.
    ///
    /// # Errors
    ///
    /// Want of memory.
    pub fn copy(&self, alloc: Global) -> Result<ElementMesh, AllocError>
        ensures { IfOk result (λ m. mesh_of m ≡ mesh_of self.now) }
    {
        let mut printed = Vec::new(alloc);
        printed.extend_from_slice(&self.printed)?;
        Ok(ElementMesh {
            number: self.number,
            kind: self.kind,
            frame: self.frame,
            step: self.step,
            mesh: copied_mesh(alloc, &self.mesh)?,
            printed,
            six: self.six,
        })
    }
}
