ghost use Rattle.std.specs.Prelude.{◌<◌, length, All, IfOk};
ghost use Rattle.poly_frag.specs.Cycles.{IsFragment};
ghost use Rattle.tree_pool.specs.Trees.{Tree};
ghost use Rattle.tree_pool.specs.Pools.{IsLive, StandsFor};
ghost use Rattle.face_walk.specs.Faces.{IsOfBook, IsTight, AreFacesOn, AreFacesOf};

use crate::faces::OutFace;
use crate::visits::walk;
use plane_core::{PlaneBook, PlaneId};
use std::alloc::{AllocError, Global};
use tree_pool::{Pool, TreeId};

/// The faces of a tree on one plane of the book (a rule of this project): pieces of the plane across which the value of the
/// tree changes, each with the side that is outside. This is said of trees whose planes are in the book, and which are false
/// where a coordinate has a size above 1048576 grid steps, strictly inside the enclosing cube. The error is want of memory.
pub fn faces_on(
    alloc: Global,
    book: &PlaneBook,
    pool: &Pool,
    tree: TreeId,
    plane: PlaneId,
) -> Result<Vec<OutFace>, AllocError>
    requires live { IsLive pool.now tree }
    requires given { plane.k < length book.now }
    ensures fragments { IfOk result (λ faces. All (λ o. IsFragment book.now o.frag) faces.items) }
    ensures faces { IfOk result (λ faces. (t : Tree) → StandsFor pool.now tree t → IsOfBook book.now t → IsTight book.now t → AreFacesOn book.now t plane faces.items) }
{
    let _planes = book.count();
    let _trees = pool.count();
    walk(alloc, book, pool, tree, Some(plane))
}

/// The faces of a tree on all planes, in the order of the planes in the book, with the words of `faces_on`. The planes of
/// the enclosing cube have none. The error is want of memory.
pub fn all_faces(
    alloc: Global,
    book: &PlaneBook,
    pool: &Pool,
    tree: TreeId,
) -> Result<Vec<OutFace>, AllocError>
    requires live { IsLive pool.now tree }
    ensures fragments { IfOk result (λ faces. All (λ o. IsFragment book.now o.frag) faces.items) }
    ensures faces { IfOk result (λ faces. (t : Tree) → StandsFor pool.now tree t → IsOfBook book.now t → IsTight book.now t → AreFacesOf book.now t faces.items) }
{
    let _planes = book.count();
    let _trees = pool.count();
    let mut faces = walk(alloc, book, pool, tree, None)?;
    faces.sort_by_key(|face: &OutFace| -> u32 { face.frag.support.k })?;
    Ok(faces)
}
