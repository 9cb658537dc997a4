ghost use Rattle.std.specs.Prelude.{◌+◌, ◌<◌, ◌^◌, length, IfOk};
ghost use Rattle.grid_solid.specs.Bodies.{body_of};
ghost use Rattle.grid_solid.specs.Counts.{body_plane_count};
ghost use Rattle.element_mesh.specs.Surfaces.{AreFacesOfBody, IsSurfaceOf};

use edge_cut::cut_faces;
use exact_mesh::ExactMesh;
use face_walk::{OutFace, all_faces};
use grid_solid::GridSolid;
use plane_core::PlaneBook;
use solid_tree::solid_tree;
use std::alloc::{AllocError, Global};
use tree_pool::Pool;

/// The faces of an element, over the planes of the book, to which those of the element are added: at most four for each
/// triangle, and one for each half-space. The error is want of memory.
fn element_faces(
    alloc: Global,
    book: &mut PlaneBook,
    solid: &GridSolid,
) -> Result<Vec<OutFace>, AllocError>
    requires room { length book.old + body_plane_count (body_of solid.now) < 2 ^ 31 }
    ensures { IfOk result (λ faces. AreFacesOfBody book.new (body_of solid.now) faces.items) }
{
    let mut pool = Pool::new(alloc)?;
    let tree = solid_tree(alloc, book, &mut pool, solid, &[])?;
    let _planes = book.count();
    all_faces(alloc, book, &pool, tree)
}

/// The exact mesh of an element: its faces, with their edges cut at every corner on them. The error is want of memory.
pub(crate) fn surface_mesh(alloc: Global, solid: &GridSolid) -> Result<ExactMesh, AllocError>
    requires room { 6 + body_plane_count (body_of solid.now) < 2 ^ 31 }
    ensures { IfOk result (IsSurfaceOf (body_of solid.now)) }
{
    let mut book = PlaneBook::new(alloc)?;
    let faces = element_faces(alloc, &mut book, solid)?;
    cut_faces(alloc, &book, &faces)
}
