ghost use Rattle.std.specs.Prelude.{MatchOption, map, IfOk};
ghost use Rattle.exact_mesh.specs.Meshes.{face_of};
ghost use Rattle.edge_balance.specs.Balance.{AreBalanced, IsLeastUnbalanced};

use crate::differences::first_difference;
use crate::edges::{Edge, all_edges, turned_edges};
use exact_mesh::MeshFace;
use std::alloc::{AllocError, Global};

/// The least pair of places, by its first place and then by its second, for which the directed edge from the first to the
/// second stands in the faces a different number of times than its reverse; `None` where there is none.
///
/// # Errors
///
/// Want of memory.
pub fn unbalanced(alloc: Global, faces: &[MeshFace]) -> Result<Option<(usize, usize)>, AllocError>
    ensures { IfOk result (λ pair. MatchOption pair (AreBalanced (map face_of faces.now)) (λ ends. IsLeastUnbalanced (map face_of faces.now) ends.0 ends.1)) }
{
    let mut edges = all_edges(alloc, faces)?;
    let mut back = turned_edges(alloc, &edges)?;
    edges.sort_unstable();
    back.sort_unstable();
    Ok(first_difference(&edges, &back))
}
