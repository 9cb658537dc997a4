ghost use Rattle.std.specs.Prelude.{◌≡◌, ◌^◌, ◌-◌, All, length, IfOk};
ghost use Rattle.spec_place.specs.Vectors.{IsWithin};
ghost use Rattle.tree_trials.specs.Faces.{IsSmall};

use ix_profile::{Loop, Loops};
use solid_expr::Face;
use spec_space::Vector;
use std::alloc::{AllocError, Global};
use std::test::Fail;

/// A place in micrometres.
pub(crate) type Place = (u32, u32, u32);

/// The place in nanometres.
fn vector(place: Place) -> Vector
    ensures { IsWithin (2 ^ 62 - 1) result }
{
    Vector {
        x: i128::from(place.0) * 1000,
        y: i128::from(place.1) * 1000,
        z: i128::from(place.2) * 1000,
    }
}

/// The loop of some places.
fn loop_of(alloc: Global, places: &[Place]) -> Result<Loop, AllocError>
    ensures long { IfOk result (λ l. length l ≡ length places.now) }
    ensures within { IfOk result (λ l. All (IsWithin (2 ^ 62 - 1)) l) }
{
    let mut points = Vec::new(alloc);
    for place in places {
        points.push(vector(*place))?;
    }
    Ok(Loop { points })
}

/// The face of three to eight places, with the number that a refusal of it names.
pub(crate) fn face(alloc: Global, at: u64, places: &[Place]) -> Result<Face, Fail>
    ensures { IfOk result IsSmall }
{
    if places.len() < 3 || places.len() > 8 {
        return Err(Fail::from("a face has from three to eight corners"));
    }
    let mut loops = Loops::new(alloc);
    loops.push(loop_of(alloc, places)?)?;
    Ok(Face::of_loops(at, loops))
}

/// The places below some others, at one height.
fn lowered(alloc: Global, places: &[Place], low: u32) -> Result<Vec<Place>, AllocError>
    ensures { IfOk result (λ lowered. length lowered.items ≡ length places.now) }
{
    let mut lowered = Vec::new(alloc);
    for place in places {
        lowered.push((place.0, place.1, low))?;
    }
    Ok(lowered)
}

/// The face below some places, at one height.
fn bottom(alloc: Global, top: &[Place], low: u32) -> Result<Face, Fail>
    ensures { IfOk result IsSmall }
{
    let places = lowered(alloc, top, low)?;
    face(alloc, 7, places.as_slice())
}

/// Appends the faces of a prism that stands at a height, its top given by the places of its corners.
pub(crate) fn push_prism(
    alloc: Global,
    faces: &mut Vec<Face>,
    low: u32,
    top: &[Place],
) -> Result<(), Fail>
    requires { All IsSmall faces.old.items }
    ensures { All IsSmall faces.new.items }
{
    faces.push(bottom(alloc, top, low)?)?;
    faces.push(face(alloc, 7, top)?)?;
    for k in 0..top.len() {
        let next = if k + 1 < top.len() { k + 1 } else { 0 };
        let (from, to) = (top[k], top[next]);
        let side = [(from.0, from.1, low), (to.0, to.1, low), to, from];
        faces.push(face(alloc, 7, &side)?)?;
    }
    Ok(())
}

/// The four corners of a square with its least corner at one place.
pub(crate) fn square(x: u32, y: u32, z: u32, length: u32) -> [Place; 4] {
    let (right, back) = (x.saturating_add(length), y.saturating_add(length));
    [(x, y, z), (right, y, z), (right, back, z), (x, back, z)]
}
