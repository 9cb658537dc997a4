ghost use Rattle.std.specs.Prelude.{◌≡◌, ◌≤◌, ◌^◌, ◌-◌, All, map, IfOk, true, false, MatchOption};
ghost use Rattle.std.specs.List.{list_all};
ghost use Rattle.spec_place.specs.Vectors.{IsWithin};
ghost use Rattle.spec_place.specs.Maps.{corner};
ghost use Rattle.spec_grid.specs.Rounded.{is_near, is_face_near, face_on_grid};
ghost use Rattle.grid_round.specs.Views.{RoundsFaces};

use crate::corners::{are_near, corners};
use crate::faults::RoundFault;
use ix_place::Map;
use ix_profile::{Loop, Loops};
use solid_expr::Face;
use spec_refusal::Refusal;
use std::alloc::{AllocError, Global};

/// The loops of a face on the grid.
fn round_loops(alloc: Global, under: &Map, step: u32, loops: &[Loop]) -> Result<Loops, AllocError>
    requires low { 1 ≤ step }
    requires high { step ≤ 10000 }
    requires loops { All (All (IsWithin (2 ^ 62 - 1))) loops.now }
    ensures { IfOk result (λ rounded. rounded ≡ map (map (corner under.now step)) loops.now) }
{
    let mut rounded = Loops::new(alloc);
    for found in loops {
        let points = corners(alloc, under, step, found.points())?;
        rounded.push(Loop { points })?;
    }
    Ok(rounded)
}

fn is_loop_near(found: &Loop) -> bool
    ensures { result ≡ list_all is_near found.now }
{
    are_near(found.points())
}

/// Whether the corners of all loops are near.
fn are_loops_near(loops: &[Loop]) -> bool
    ensures { result ≡ list_all (list_all is_near) loops.now }
{
    loops.iter().all(is_loop_near)
}

/// The face on the grid, or `None` where a corner is not near.
fn round_face(
    alloc: Global,
    under: &Map,
    step: u32,
    face: &Face,
) -> Result<Option<Face>, AllocError>
    requires low { 1 ≤ step }
    requires high { step ≤ 10000 }
    ensures { IfOk result (λ found. MatchOption found
        (is_face_near (face_on_grid step under.now face.now) ≡ false)
        (λ rounded. (rounded ≡ face_on_grid step under.now face.now) × (is_face_near (face_on_grid step under.now face.now) ≡ true))) }
{
    let loops = round_loops(alloc, under, step, face.loops().as_slice())?;
    if are_loops_near(loops.as_slice()) {
        Ok(Some(Face::of_loops(face.at, loops)))
    } else {
        Ok(None)
    }
}

/// The faces of a primitive on the grid, of which all corners are near.
pub fn round_faces(
    alloc: Global,
    at: u64,
    under: &Map,
    step: u32,
    faces: &[Face],
) -> Result<Vec<Face>, RoundFault>
    requires low { 1 ≤ step }
    requires high { step ≤ 10000 }
    ensures { RoundsFaces at (map (face_on_grid step under.now) faces.now) result }
{
    let mut rounded = Vec::new(alloc);
    for face in faces {
        let Some(near) = round_face(alloc, under, step, face)? else {
            return Err(Refusal::CornerTooFar { at }.into());
        };
        match rounded.push(near) {
            Ok(()) => {}
            Err(error) => return Err(AllocError::from(error).into()),
        }
    }
    Ok(rounded)
}
