ghost use Rattle.std.specs.Prelude.{All, IfOk, map};
ghost use Rattle.std.specs.List.{AllZip};
ghost use Rattle.corner_book.specs.Corners.{corners_of as book_corners, AreDistinct, IsMadeWith};
ghost use Rattle.exact_mesh.specs.Meshes.{face_of};
ghost use Rattle.exact_mesh.specs.Order.{AreInFirstUse};
ghost use Rattle.poly_frag.specs.Cycles.{IsCycle};
ghost use Rattle.edge_cut.specs.Cuts.{AreCutFacesOf};
ghost use Rattle.edge_cut.specs.Outlines.{IsOfBook};
ghost use Rattle.edge_cut.specs.Rounds.{IsFaceOf};

use crate::builder::MeshBuilder;
use crate::gather::gather;
use crate::lines::Lines;
use crate::outlines::outlines;
use crate::sides::Outline;
use corner_book::CornerBook;
use exact_mesh::ExactMesh;
use face_walk::OutFace;
use plane_core::PlaneBook;
use std::alloc::{AllocError, Global};

/// The mesh of the pieces, whose edges are cut at every corner of the book on them. The error is want of memory.
fn build(
    alloc: Global,
    book: &PlaneBook,
    corners: &CornerBook,
    outlines: &[Outline],
) -> Result<ExactMesh, AllocError>
    requires made { IsMadeWith book.now corners.now }
    requires given { All (IsOfBook book.now) outlines.now }
    ensures faces { IfOk result (λ mesh. AllZip (IsFaceOf book.now (book_corners corners.now) mesh.corners.items) outlines.now (map face_of mesh.faces.items)) }
    ensures distinct { IfOk result (λ mesh. AreDistinct mesh.corners.items) }
    ensures order { IfOk result (λ mesh. AreInFirstUse mesh.corners.items (map face_of mesh.faces.items)) }
{
    let mut lines = Lines::new(alloc);
    let mut builder = MeshBuilder::new(alloc);
    for outline in outlines {
        builder.add_face(alloc, book, corners, &mut lines, outline)?;
    }
    builder.finish(alloc)
}

/// The mesh of pieces of planes: one face for each piece, in order, seen from outside, with each edge cut at every corner of
/// the mesh that lies on it, so that it has no corner inside an edge (a rule of this project). The corners are those of the
/// pieces, each once, in the order of their first use, over the faces in order and round each face. A part of an edge has
/// the plane of its edge, with its normal out of the face.
///
/// # Errors
///
/// Want of memory.
pub fn cut_faces(
    alloc: Global,
    book: &PlaneBook,
    faces: &[OutFace],
) -> Result<ExactMesh, AllocError>
    requires cycles { All (λ o. IsCycle book.now o.frag) faces.now }
    ensures faces { IfOk result (λ mesh. AreCutFacesOf book.now mesh.corners.items faces.now (map face_of mesh.faces.items)) }
    ensures distinct { IfOk result (λ mesh. AreDistinct mesh.corners.items) }
    ensures order { IfOk result (λ mesh. AreInFirstUse mesh.corners.items (map face_of mesh.faces.items)) }
{
    let outlines = outlines(alloc, book, faces)?;
    let corners = gather(alloc, book, &outlines)?;
    build(alloc, book, &corners, &outlines)
}
