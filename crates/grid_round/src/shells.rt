ghost use Rattle.std.specs.Prelude.{◌≡◌, ◌≤◌, map, true};
ghost use Rattle.std.specs.List.{list_all};
ghost use Rattle.spec_shell.specs.Edges as shell_edges;
ghost use Rattle.spec_grid.specs.Rounded.{shell, face_on_grid, is_face_near, if_closed, edges_of};
ghost use Rattle.grid_round.specs.Views.{RoundsNothing, RoundsTriangles, RoundsShell};

use crate::edges::edges_of;
use crate::faces::round_faces;
use crate::faults::RoundFault;
use crate::planes::are_fitting;
use crate::triangles::face_triangles;
use grid_solid::{GridShell, GridTriangle};
use ix_place::Map;
use shell_edges::open_edge;
use solid_expr::Face;
use spec_refusal::Refusal;
use sqlite_items::Items;
use std::alloc::Global;

/// Nothing, if the shell of these faces is closed.
fn closed(alloc: Global, at: u64, faces: &[Face]) -> Result<(), RoundFault>
    ensures { RoundsNothing result (if_closed at (shell_edges.open_edge (edges_of faces.now))) }
{
    let edges = edges_of(alloc, faces)?;
    match open_edge(alloc, &edges)? {
        Some((from, to)) => Err(Refusal::OpenShell { at, from, to }.into()),
        None => Ok(()),
    }
}

/// The triangles of the faces, if all their planes are within the sizes of planes; else the first face of which one is not
/// is refused.
fn fitting_triangles(alloc: Global, faces: &[Face]) -> Result<Vec<GridTriangle>, RoundFault>
    requires { list_all is_face_near faces.now ≡ true }
    ensures { RoundsTriangles faces.now result }
{
    let mut triangles = Vec::new(alloc);
    for face in faces {
        let mut more = face_triangles(alloc, face)?;
        if !are_fitting(&more) {
            return Err(Refusal::PlaneTooLarge { at: face.at }.into());
        }
        triangles.append(&mut more)?;
    }
    Ok(triangles)
}

/// The shell of near faces, if it is closed and the planes of its triangles are within their sizes.
fn shell_of(alloc: Global, at: u64, faces: &[Face]) -> Result<GridShell, RoundFault>
    requires { list_all is_face_near faces.now ≡ true }
    ensures { RoundsShell result (shell at faces.now) }
{
    closed(alloc, at, faces)?;
    let triangles = fitting_triangles(alloc, faces)?;
    Ok(GridShell {
        triangles: Items::from_vec(triangles),
    })
}

/// A primitive on the grid.
pub fn round_shell(
    alloc: Global,
    at: u64,
    under: &Map,
    step: u32,
    faces: &[Face],
) -> Result<GridShell, RoundFault>
    requires low { 1 ≤ step }
    requires high { step ≤ 10000 }
    ensures { RoundsShell result (shell at (map (face_on_grid step under.now) faces.now)) }
{
    let rounded = round_faces(alloc, at, under, step, faces)?;
    shell_of(alloc, at, &rounded)
}
