ghost use Rattle.std.specs.Prelude.{◌≡◌, ◌^◌, ◌<◌, ◌+◌, ◌*◌, length, map, All, IfOk, [], ◌∷◌};
ghost use Rattle.std.specs.List.{flat_map};
ghost use Rattle.spec_space.specs.declared.Plane.{Plane as AnyPlane};
ghost use Rattle.spec_solid.specs.Planes.{triangle_planes, solid_planes};
ghost use Rattle.spec_solid.specs.Solids.{HalfSpace, is_inside};
ghost use Rattle.ray_law.specs.Shells.{is_covered, is_covered_oddly};
ghost use Rattle.plane_core.specs.Views.{plane_of};
ghost use Rattle.grid_solid.specs.Triangles.{triangle_of, IsNear, HasForms};
ghost use Rattle.grid_solid.specs.Views.{solid_of};
ghost use Rattle.tree_pool.specs.Trees.{Tree};
ghost use Rattle.tree_pool.specs.Pools.{IsLive, StandsFor, KeepsTrees, AreTrees};
ghost use Rattle.tree_pool.specs.declared.node.TreeId.{TreeId as AnyId};
ghost use Rattle.triangle_trees.specs.Forms.{IsGrown, IsTreeOf};
ghost use Rattle.grid_solid.specs.Counts.{plane_count};
ghost use Rattle.triangle_trees.specs.Primitives.{IsPrimitive};

use crate::regions::regions_below;
use grid_solid::{GridNode, GridTriangle};
use parity_trees::parity_tree;
use plane_core::{Plane, PlaneBook};
use std::alloc::{AllocError, Global};
use tree_pool::{Pool, TreeId};

/// The tree of the points strictly below a triangle, in its column along z. An upright triangle has none. The planes of the
/// triangle are added to the book, at most four; the numbers of the pool keep their trees. The error is want of memory.
pub fn triangle_tree(
    alloc: Global,
    book: &mut PlaneBook,
    pool: &mut Pool,
    t: &GridTriangle,
) -> Result<TreeId, AllocError>
    requires near { IsNear (triangle_of t.now) }
    requires forms { HasForms (triangle_of t.now) }
    requires room { length book.old + 4 < 2 ^ 31 }
    ensures below { IfOk result (λ id. (tree : Tree) → StandsFor pool.new id tree → IsTreeOf book.new (triangle_planes (triangle_of t.now)) (is_covered (triangle_of t.now)) tree) }
    ensures live { IfOk result (IsLive pool.new) }
    ensures grown { IsGrown 4 book.old book.new }
    ensures kept { KeepsTrees pool.old pool.new }
    ensures trees { AreTrees pool.new }
{
    face_tree(alloc, book, pool, &[*t])
}

/// The tree of the points that lie strictly below an odd number of the triangles, each in its column along z. The planes of
/// the triangles are added to the book, at most four for each; the numbers of the pool keep their trees. The error is want
/// of memory.
pub fn face_tree(
    alloc: Global,
    book: &mut PlaneBook,
    pool: &mut Pool,
    triangles: &[GridTriangle],
) -> Result<TreeId, AllocError>
    requires near { All IsNear (map triangle_of triangles.now) }
    requires forms { All HasForms (map triangle_of triangles.now) }
    requires room { length book.old + 4 * length triangles.now < 2 ^ 31 }
    ensures below { IfOk result (λ id. (tree : Tree) → StandsFor pool.new id tree → IsTreeOf book.new (flat_map triangle_planes (map triangle_of triangles.now)) (is_covered_oddly (map triangle_of triangles.now)) tree) }
    ensures live { IfOk result (IsLive pool.new) }
    ensures grown { IsGrown (4 * length triangles.now) book.old book.new }
    ensures kept { KeepsTrees pool.old pool.new }
    ensures trees { AreTrees pool.new }
{
    let _live = pool.count();
    let regions = regions_below(alloc, book, triangles)?;
    parity_tree(alloc, book, pool, regions)
}

/// The tree of a half-space. Its plane is added to the book; the numbers of the pool keep their trees. The error is want of memory.
fn half_space_tree(
    book: &mut PlaneBook,
    pool: &mut Pool,
    plane: Plane,
    in_front: bool,
) -> Result<TreeId, AllocError>
    requires room { length book.old + 1 < 2 ^ 31 }
    ensures inside { IfOk result (λ id. (tree : Tree) → StandsFor pool.new id tree → IsTreeOf book.new (plane_of plane ∷ []) (is_inside (HalfSpace (plane_of plane) in_front)) tree) }
    ensures live { IfOk result (IsLive pool.new) }
    ensures grown { IsGrown 1 book.old book.new }
    ensures kept { KeepsTrees pool.old pool.new }
    ensures trees { AreTrees pool.new }
{
    let _live = pool.count();
    let number = book.add(plane)?;
    let front = pool.leaf(in_front);
    let back = pool.leaf(!in_front);
    pool.node(number, front, back)
}

/// The tree of a shell or of a half-space: of the points inside it. A shell's triangles tell them along z, since it is closed. Its
/// planes are added to the book, at most four for each triangle, and one for a half-space; the numbers of the pool keep
/// their trees. The error is want of memory.
pub fn primitive_tree(
    alloc: Global,
    book: &mut PlaneBook,
    pool: &mut Pool,
    node: &GridNode,
) -> Result<TreeId, AllocError>
    requires primitive { IsPrimitive node.now }
    requires room { length book.old + plane_count (solid_of node.now) < 2 ^ 31 }
    ensures inside { IfOk result (λ id. (tree : Tree) → StandsFor pool.new id tree → IsTreeOf book.new (solid_planes (solid_of node.now)) (is_inside (solid_of node.now)) tree) }
    ensures live { IfOk result (IsLive pool.new) }
    ensures grown { IsGrown (plane_count (solid_of node.now)) book.old book.new }
    ensures kept { KeepsTrees pool.old pool.new }
    ensures trees { AreTrees pool.new }
{
    match node {
        GridNode::Shell(shell) => face_tree(alloc, book, pool, shell.triangles.as_slice()),
        GridNode::HalfSpace { plane, in_front } => half_space_tree(book, pool, *plane, *in_front),
        GridNode::Combined { .. } | GridNode::Union { .. } => unreachable!(),
    }
}
