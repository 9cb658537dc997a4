ghost use Rattle.std.specs.Prelude.{◌≡◌, map, IfOk};
ghost use Rattle.spec_solid.specs.Extrusions.{face_triangles};
ghost use Rattle.grid_solid.specs.Triangles.{triangle_of};
ghost use Rattle.grid_round.specs.Fans.{fan_triangle};

use crate::edges::face_edges;
use grid_solid::GridTriangle;
use solid_expr::Face;
use spec_space::Vector;
use std::alloc::{AllocError, Global};

/// The triangle from a corner to an edge.
fn fan_triangle(apex: &Vector, edge: &(Vector, Vector)) -> GridTriangle
    ensures { triangle_of result ≡ fan_triangle apex.now edge.now }
{
    GridTriangle {
        a: *apex,
        b: edge.0,
        c: edge.1,
    }
}

/// The triangles from a corner to edges.
fn fan(
    alloc: Global,
    apex: &Vector,
    edges: &[(Vector, Vector)],
) -> Result<Vec<GridTriangle>, AllocError>
    ensures { IfOk result (λ triangles. map triangle_of triangles.items ≡ map (fan_triangle apex.now) edges.now) }
{
    let mut triangles = Vec::new(alloc);
    for edge in edges {
        triangles.push(fan_triangle(apex, edge))?;
    }
    Ok(triangles)
}

/// The triangles into which a face is cut.
pub fn face_triangles(alloc: Global, face: &Face) -> Result<Vec<GridTriangle>, AllocError>
    ensures { IfOk result (λ triangles. map triangle_of triangles.items ≡ face_triangles face.now.loops) }
{
    let edges = face_edges(alloc, face)?;
    let apex = face.loops().as_slice()[0].points()[0];
    fan(alloc, &apex, &edges)
}
