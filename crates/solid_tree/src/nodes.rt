ghost use Rattle.std.specs.Prelude.{◌^◌, ◌<◌, ◌+◌, length, map, IfOk};
ghost use Rattle.std.specs.List.{flat_map};
ghost use Rattle.spec_solid.specs.Planes.{solid_planes};
ghost use Rattle.spec_solid.specs.Solids.{is_inside, is_inside_some};
ghost use Rattle.grid_solid.specs.Views.{solid_of};
ghost use Rattle.tree_pool.specs.Pools.{IsLive, KeepsTrees, AreTrees};
ghost use Rattle.triangle_trees.specs.Forms.{IsGrown};
ghost use Rattle.grid_solid.specs.Counts.{plane_count};
ghost use Rattle.solid_tree.specs.Unions.{HasTree};
ghost use Rattle.grid_solid.specs.Counts.{all_planes_count};

use crate::unions::{combined, united};
use grid_solid::GridNode;
use plane_core::PlaneBook;
use std::alloc::{AllocError, Global};
use tree_pool::{Pool, TreeId};
use triangle_trees::primitive_tree;

/// The tree of a solid: of the points inside it. Its planes are added to the book, at most four for each triangle, and one
/// for each half-space; the numbers of the pool keep their trees. The error is want of memory.
fn node_tree(
    alloc: Global,
    book: &mut PlaneBook,
    pool: &mut Pool,
    node: &GridNode,
) -> Result<TreeId, AllocError>
    requires room { length book.old + plane_count (solid_of node.now) < 2 ^ 31 }
    ensures inside { IfOk result (HasTree pool.new book.new (solid_planes (solid_of node.now)) (is_inside (solid_of node.now))) }
    ensures live { IfOk result (IsLive pool.new) }
    ensures grown { IsGrown (plane_count (solid_of node.now)) book.old book.new }
    ensures kept { KeepsTrees pool.old pool.new }
    ensures trees { AreTrees pool.new }
{
    match node {
        GridNode::Combined {
            operator,
            first,
            second,
        } => {
            let first = node_tree(alloc, book, pool, first.get())?;
            let second = node_tree(alloc, book, pool, second.get())?;
            combined(alloc, book, pool, *operator, first, second)
        }
        GridNode::Union { parts } => {
            let _live = pool.count();
            let parts = parts.as_slice();
            let mut trees = Vec::new(alloc);
            for part in parts {
                let tree = node_tree(alloc, book, pool, part)?;
                trees.push(tree)?;
            }
            united(alloc, book, pool, trees)
        }
        GridNode::Shell(_) | GridNode::HalfSpace { .. } => {
            primitive_tree(alloc, book, pool, node)
        }
    }
}

/// The tree of what lies in some of the solids. Their planes are added to the book, at most four for each triangle, and one
/// for each half-space; the numbers of the pool keep their trees. The error is want of memory.
pub(crate) fn union_tree(
    alloc: Global,
    book: &mut PlaneBook,
    pool: &mut Pool,
    nodes: &[GridNode],
) -> Result<TreeId, AllocError>
    requires room { length book.old + all_planes_count (map solid_of nodes.now) < 2 ^ 31 }
    ensures inside { IfOk result (HasTree pool.new book.new (flat_map solid_planes (map solid_of nodes.now)) (is_inside_some (map solid_of nodes.now))) }
    ensures live { IfOk result (IsLive pool.new) }
    ensures grown { IsGrown (all_planes_count (map solid_of nodes.now)) book.old book.new }
    ensures kept { KeepsTrees pool.old pool.new }
    ensures trees { AreTrees pool.new }
{
    let _live = pool.count();
    let mut trees = Vec::new(alloc);
    for node in nodes {
        let tree = node_tree(alloc, book, pool, node)?;
        trees.push(tree)?;
    }
    united(alloc, book, pool, trees)
}
