ghost use Rattle.std.specs.Prelude.{◌≡◌, ◌+◌, ◌<◌, ◌++◌, drop, length, OnOk, IfOk};
ghost use Rattle.std.specs.List.{flat_map};
ghost use Rattle.spec_solid.specs.Extrusions.{loop_edges};
ghost use Rattle.spec_grid.specs.Rounded.{edges_of};
ghost use Rattle.solid_expr.specs.Sides.{next_in};

use ix_profile::Loop;
use solid_expr::Face;
use spec_space::Vector;
use std::alloc::{AllocError, Global};

/// The corner of a loop that follows the one of a number.
fn corner_after(points: &[Vector], k: usize, first: &Vector) -> Vector
    requires { k < length points.now }
    ensures { result ≡ next_in first.now (drop (k + 1) points.now) }
{
    if k + 1 < points.len() {
        return points[k + 1];
    }
    *first
}

/// Appends the edges of a loop: each corner with the next one, and the last with the first.
fn push_edges(edges: &mut Vec<(Vector, Vector)>, points: &[Vector]) -> Result<(), AllocError>
    ensures { OnOk result (edges.new.items ≡ edges.old.items ++ loop_edges points.now) }
{
    if points.is_empty() {
        return Ok(());
    }
    let first = points[0];
    for k in 0..points.len() {
        let next = corner_after(points, k, &first);
        edges.push((points[k], next))?;
    }
    Ok(())
}

/// Appends the edges of loops.
fn push_loops(edges: &mut Vec<(Vector, Vector)>, loops: &[Loop]) -> Result<(), AllocError>
    ensures { OnOk result (edges.new.items ≡ edges.old.items ++ flat_map loop_edges loops.now) }
{
    for found in loops {
        push_edges(edges, found.points())?;
    }
    Ok(())
}

/// The edges of all loops of a face.
pub fn face_edges(alloc: Global, face: &Face) -> Result<Vec<(Vector, Vector)>, AllocError>
    ensures { IfOk result (λ edges. edges.items ≡ flat_map loop_edges face.now.loops) }
{
    let mut edges = Vec::new(alloc);
    push_loops(&mut edges, face.loops().as_slice())?;
    Ok(edges)
}

/// The edges of all loops of the faces.
pub fn edges_of(alloc: Global, faces: &[Face]) -> Result<Vec<(Vector, Vector)>, AllocError>
    ensures { IfOk result (λ edges. edges.items ≡ edges_of faces.now) }
{
    let mut edges = Vec::new(alloc);
    for face in faces {
        push_loops(&mut edges, face.loops().as_slice())?;
    }
    Ok(edges)
}
