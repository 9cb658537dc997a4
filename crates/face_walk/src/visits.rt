ghost use Rattle.std.specs.Prelude.{◌≡◌, ◌<◌, ◌++◌, [], ◌∷◌, Some, false, true, length, All, IfOk, OnOk};
ghost use Rattle.tree_pool.specs.Trees.{Tree};
ghost use Rattle.tree_pool.specs.Pools.{StandsFor, IsLive, node_at};
ghost use Rattle.tree_pool.specs.declared.node.TreeId.{TreeId};
ghost use Rattle.tree_pool.specs.declared.node.PoolNode.TheVariants.{Node};
ghost use Rattle.face_walk.specs.Works.{AreLive, is_sought, IsPathOf, IsFit, IsFragmentFace, AddsOwn, IsOpened, IsWalked, waiting_visit};

use crate::faces::OutFace;
use crate::lower::add_faces;
use crate::work::{Places, Sheet, Visit};
use plane_cells::{Step, polygon};
use plane_core::{PlaneBook, PlaneId};
use std::alloc::{AllocError, Global};
use tree_pool::{Pool, PoolNode, TreeId};

/// Whether the faces on a plane are sought: those on one plane only, or all.
fn seeks(only: Option<PlaneId>, plane: PlaneId) -> bool
    ensures value { result ≡ is_sought only plane }
{
    match only {
        Some(sought) => sought.k == plane.k,
        None => true,
    }
}

/// Adds the faces on the plane of a node, if they are sought: they lie on the plane's part in the cell of the node's path,
/// between the children. The error is want of memory.
fn add_own_faces(
    alloc: Global,
    book: &PlaneBook,
    pool: &Pool,
    only: Option<PlaneId>,
    path: &[Step],
    plane: PlaneId,
    children: Places,
    faces: &mut Vec<OutFace>,
) -> Result<(), AllocError>
    requires path { IsPathOf book.now path.now }
    requires given { plane.k < length book.now }
    requires live { AreLive pool.now children }
    ensures added { OnOk result (AddsOwn pool.now book.now only path.now plane children.front children.back faces.old.items faces.new.items) }
{
    if !seeks(only, plane) {
        return Ok(());
    }
    let Some(frag) = polygon(alloc, book, path, plane)? else {
        return Ok(());
    };
    let sheet = Sheet {
        frag,
        places: children,
    };
    add_faces(alloc, book, pool, sheet, faces)
}

/// Lets the walks of the parts of a tree wait, that of the part in front at the end. The error is want of memory.
fn wait(
    depth: usize,
    plane: PlaneId,
    children: Places,
    visits: &mut Vec<Visit>,
) -> Result<(), AllocError>
    ensures visits { OnOk result (visits.new.items ≡ visits.old.items ++ (waiting_visit children.back depth plane false ∷ (waiting_visit children.front depth plane true ∷ []))) }
{
    visits.push(Visit {
        id: children.back,
        depth,
        step: Step {
            plane,
            in_front: false,
        },
    })?;
    visits.push(Visit {
        id: children.front,
        depth,
        step: Step {
            plane,
            in_front: true,
        },
    })?;
    Ok(())
}

/// Walks a tree one step, with the path to it: adds the faces on the plane of its top, if they are sought, and lets the walks
/// of its parts wait. A plane that the book does not have gives no faces. The error is want of memory.
fn open(
    alloc: Global,
    book: &PlaneBook,
    pool: &Pool,
    only: Option<PlaneId>,
    path: &[Step],
    id: TreeId,
    visits: &mut Vec<Visit>,
    faces: &mut Vec<OutFace>,
) -> Result<(), AllocError>
    requires path { IsPathOf book.now path.now }
    requires live { IsLive pool.now id }
    ensures opened { OnOk result (IsOpened pool.now book.now only path.now id visits.old.items visits.new.items faces.old.items faces.new.items) }
{
    match pool.get(id) {
        PoolNode::Leaf(_) => Ok(()),
        PoolNode::Node { plane, front, back } => {
            if plane.k as usize >= book.count() {
                return Ok(());
            }
            let children = Places { front, back };
            add_own_faces(alloc, book, pool, only, path, plane, children, faces)?;
            wait(path.len(), plane, children, visits)
        }
    }
}

/// The faces of a tree on one plane only, or on all, in the order of the walk. The error is want of memory.
pub(crate) fn walk(
    alloc: Global,
    book: &PlaneBook,
    pool: &Pool,
    id: TreeId,
    only: Option<PlaneId>,
) -> Result<Vec<OutFace>, AllocError>
    requires live { IsLive pool.now id }
    ensures fragments { IfOk result (λ faces. All (IsFragmentFace book.now) faces.items) }
    ensures walked { IfOk result (λ faces. (t : Tree) → StandsFor pool.now id t → IsFit book.now t → IsWalked book.now t only faces.items) }
{
    let mut path = Vec::new(alloc);
    let mut visits = Vec::new(alloc);
    let mut faces = Vec::new(alloc);
    open(alloc, book, pool, only, &path, id, &mut visits, &mut faces)?;
    'walk: while let Some(visit) = visits.pop() {
        path.truncate(visit.depth);
        path.push(visit.step)?;
        open(
            alloc,
            book,
            pool,
            only,
            &path,
            visit.id,
            &mut visits,
            &mut faces,
        )?;
    }
    Ok(faces)
}
