ghost use Rattle.std.specs.Prelude.{◌≡◌, ◌++◌, map, IfOk, OnOk};
ghost use Rattle.std.specs.List.{flat_map, zip};
ghost use Rattle.spec_page.specs.Faces.{rotated, edge_ends};
ghost use Rattle.exact_mesh.specs.Meshes.{face_of};
ghost use Rattle.edge_balance.specs.Pairs.{turned};

use exact_mesh::MeshFace;
use std::alloc::{AllocError, Global};

/// An edge by the places of its ends.
pub(crate) type Edge = (usize, usize);

/// Puts the edges of a face behind those of the list. The error is want of memory.
fn put_edges(edges: &mut Vec<Edge>, places: &[usize]) -> Result<(), AllocError>
    ensures { OnOk result (edges.new.items ≡ edges.old.items ++ zip places.now (rotated places.now)) }
{
    let [first, rest @ ..] = places else {
        return Ok(());
    };
    let mut from = *first;
    for to in rest {
        edges.push((from, *to))?;
        from = *to;
    }
    edges.push((from, *first))?;
    Ok(())
}

/// The edges of the faces, in order. The error is want of memory.
pub(crate) fn all_edges(alloc: Global, faces: &[MeshFace]) -> Result<Vec<Edge>, AllocError>
    ensures { IfOk result (λ edges. edges.items ≡ flat_map edge_ends (map face_of faces.now)) }
{
    let mut edges = Vec::new(alloc);
    for face in faces {
        put_edges(&mut edges, &face.corners)?;
    }
    Ok(edges)
}

/// The same edges, each from its second end to its first. The error is want of memory.
pub(crate) fn turned_edges(alloc: Global, edges: &[Edge]) -> Result<Vec<Edge>, AllocError>
    ensures { IfOk result (λ back. back.items ≡ map turned edges.now) }
{
    edges.iter().map(|edge| (edge.1, edge.0)).collect(alloc)
}
