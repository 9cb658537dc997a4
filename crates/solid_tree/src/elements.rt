ghost use Rattle.std.specs.Prelude.{◌^◌, ◌<◌, ◌+◌, ◌++◌, ◌∷◌, Bool, List, length, map, Contains, IfOk};
ghost use Rattle.std.specs.List.{flat_map};
ghost use Rattle.spec_space.specs.declared.Plane.{Plane};
ghost use Rattle.spec_space.specs.declared.Point.{Point};
ghost use Rattle.spec_solid.specs.Planes.{solid_planes};
ghost use Rattle.grid_solid.specs.Bodies.{body_of};
ghost use Rattle.grid_solid.specs.Views.{solid_of};
ghost use Rattle.tree_pool.specs.declared.node.TreeId.{TreeId as AnyId};
ghost use Rattle.tree_pool.specs.Trees.{Tree};
ghost use Rattle.tree_pool.specs.Pools.{IsLive, StandsFor, AreTrees};
ghost use Rattle.triangle_trees.specs.Forms.{IsGrown};
ghost use Rattle.grid_solid.specs.Counts.{all_planes_count, body_plane_count};
ghost use Rattle.solid_tree.specs.Elements.{IsElementTree, IsTight};
ghost use Rattle.solid_tree.specs.Unions.{HasTree, less};
ghost use Rattle.solid_tree.specs.Kept.{KeepsTreesOf, HasOnly};

use crate::nodes::union_tree;
use crate::sweep::sweep_others;
use crate::unions::combined;
use grid_solid::{GridNode, GridSolid};
use plane_core::PlaneBook;
use spec_solid::BoolOp;
use std::alloc::{AllocError, Global};
use tree_pool::{Pool, TreeId};

/// The tree of an element: at each point strictly inside the enclosing cube and off the planes of the element it has the
/// element's meaning, and its planes are planes of the element. It is false where a coordinate has a size above 2^20 grid
/// steps. The planes are added to the book, at most four for each triangle, and one for each half-space, also where memory
/// is wanting. The pool is swept: each number that those of `keep` reach keeps its tree, also where memory is wanting, and
/// others are gone unless this tree reaches them. The error is want of memory.
pub fn solid_tree(
    alloc: Global,
    book: &mut PlaneBook,
    pool: &mut Pool,
    solid: &GridSolid,
    keep: &[TreeId],
) -> Result<TreeId, AllocError>
    requires room { length book.old + body_plane_count (body_of solid.now) < 2 ^ 31 }
    requires keep_live { (x : AnyId) → Contains keep.now x → IsLive pool.old x }
    ensures means { IfOk result (λ id. (t : Tree) → StandsFor pool.new id t → IsElementTree book.new (body_of solid.now) t) }
    ensures tight { IfOk result (λ id. (t : Tree) → StandsFor pool.new id t → IsTight book.new t) }
    ensures live { IfOk result (IsLive pool.new) }
    ensures grown { IsGrown (body_plane_count (body_of solid.now)) book.old book.new }
    ensures kept { KeepsTreesOf keep.now pool.old pool.new }
    ensures only { IfOk result (λ id. HasOnly (id ∷ keep.now) pool.new) }
    ensures trees { AreTrees pool.new }
{
    let _live = pool.count();
    let items = union_tree(alloc, book, pool, solid.items.as_slice())?;
    let tree = less_openings(alloc, book, pool, items, solid.openings.as_slice(), keep)?;
    sweep_others(alloc, pool, tree, keep)?;
    Ok(tree)
}

/// The tree of what a tree tells, less what lies in some of the openings: with no openings it is that tree. The planes of
/// the openings are added to the book, at most four for each triangle, and one for each half-space. Where there are
/// openings, the pool is swept of what neither the tree nor a number of `keep` reaches; what the latter reach keeps its tree.
/// The error is want of memory.
fn less_openings(
    alloc: Global,
    book: &mut PlaneBook,
    pool: &mut Pool,
    items: TreeId,
    openings: &[GridNode],
    keep: &[TreeId],
) -> Result<TreeId, AllocError>
    requires live { IsLive pool.old items }
    requires keep_live { (x : AnyId) → Contains keep.now x → IsLive pool.old x }
    requires room { length book.old + all_planes_count (map solid_of openings.now) < 2 ^ 31 }
    ensures less { IfOk result (λ id. (ks : List Plane) (told : Point → Bool) → HasTree pool.old book.old ks told items → HasTree pool.new book.new (ks ++ flat_map solid_planes (map solid_of openings.now)) (less told (map solid_of openings.now)) id) }
    ensures live { IfOk result (IsLive pool.new) }
    ensures grown { IsGrown (all_planes_count (map solid_of openings.now)) book.old book.new }
    ensures kept { KeepsTreesOf keep.now pool.old pool.new }
    ensures trees { AreTrees pool.new }
{
    let _live = pool.count();
    if openings.is_empty() {
        return Ok(items);
    }
    sweep_others(alloc, pool, items, keep)?;
    let removed = union_tree(alloc, book, pool, openings)?;
    combined(alloc, book, pool, BoolOp::Difference, items, removed)
}
