ghost use Rattle.std.specs.Prelude.{◌≡◌, ◌^◌, ◌-◌, ◌+◌, ◌<◌, ◌≤◌, ◌∷◌, ◌++◌, [], length, map, drop, All, IfOk, OnOk};
ghost use Rattle.std.specs.List.{flat_map};
ghost use Rattle.spec_solid.specs.Extrusions.{plus};
ghost use Rattle.spec_place.specs.Vectors.{IsWithin};
ghost use Rattle.spec_shape.specs.Profiles.{planar};
ghost use Rattle.spec_shape.specs.Shapes.{upwards, prism_faces, block_faces};
ghost use Rattle.ix_profile.specs.Outlines.{IsLoop, IsOutline};
ghost use Rattle.solid_expr.specs.Sides.{next_in, side, face_at, loop_sides, block_loops};

use crate::face::Face;
use crate::vectors::plus;
use ix_profile::{Loop, Loops};
use spec_space::Vector;
use std::alloc::{AllocError, Global};

/// The loop of the points, moved by a sweep.
fn moved_loop(alloc: Global, points: &[Vector], sweep: &Vector) -> Result<Loop, AllocError>
    requires points { All (IsWithin (2 ^ 61 - 1)) points.now }
    requires sweep { IsWithin (2 ^ 61 - 1) sweep.now }
    ensures { IfOk result (λ l. l ≡ map (λ u. plus u sweep.now) points.now) }
{
    let mut moved = Vec::new(alloc);
    for u in points {
        moved.push(plus(u, sweep))?;
    }
    Ok(Loop { points: moved })
}

fn moved_loops(alloc: Global, loops: &[Loop], sweep: &Vector) -> Result<Loops, AllocError>
    requires loops { All (All (IsWithin (2 ^ 61 - 1))) loops.now }
    requires sweep { IsWithin (2 ^ 61 - 1) sweep.now }
    ensures { IfOk result (λ moved. moved ≡ map (λ l. map (λ u. plus u sweep.now) l) loops.now) }
{
    let mut moved = Loops::new(alloc);
    for l in loops {
        moved.push(moved_loop(alloc, l.points(), sweep)?)?;
    }
    Ok(moved)
}

fn copied_loop(alloc: Global, points: &[Vector]) -> Result<Loop, AllocError>
    ensures { IfOk result (λ l. l ≡ points.now) }
{
    Ok(Loop {
        points: Vec::from_slice(alloc, points)?,
    })
}

fn copied_loops(alloc: Global, loops: &[Loop]) -> Result<Loops, AllocError>
    ensures { IfOk result (λ copies. copies ≡ loops.now) }
{
    let mut copies = Loops::new(alloc);
    for l in loops {
        copies.push(copied_loop(alloc, l.points())?)?;
    }
    Ok(copies)
}

fn bottom(alloc: Global, at: u64, loops: &Loops) -> Result<Face, AllocError>
    requires { IsOutline (2 ^ 61 - 1) loops.now }
    ensures { IfOk result (λ face. face ≡ face_at at loops.now) }
{
    let copies = copied_loops(alloc, loops.as_slice())?;
    Ok(Face::of_loops(at, copies))
}

fn top(alloc: Global, at: u64, loops: &Loops, sweep: &Vector) -> Result<Face, AllocError>
    requires loops { IsOutline (2 ^ 61 - 1) loops.now }
    requires sweep { IsWithin (2 ^ 61 - 1) sweep.now }
    ensures { IfOk result (λ face. face ≡ face_at at (map (λ l. map (λ u. plus u sweep.now) l) loops.now)) }
{
    let moved = moved_loops(alloc, loops.as_slice(), sweep)?;
    Ok(Face::of_loops(at, moved))
}

/// The loops of the quadrilateral of an edge that is swept.
fn side_loops(alloc: Global, u: &Vector, v: &Vector, sweep: &Vector) -> Result<Loops, AllocError>
    requires u { IsWithin (2 ^ 61 - 1) u.now }
    requires v { IsWithin (2 ^ 61 - 1) v.now }
    requires sweep { IsWithin (2 ^ 61 - 1) sweep.now }
    ensures { IfOk result (λ loops. loops ≡ side sweep.now (u.now, v.now)) }
{
    let corners = [*u, *v, plus(v, sweep), plus(u, sweep)];
    let mut loops = Loops::new(alloc);
    loops.push(Loop {
        points: Vec::from_array(alloc, corners)?,
    })?;
    Ok(loops)
}

fn side_face(
    alloc: Global,
    at: u64,
    u: &Vector,
    v: &Vector,
    sweep: &Vector,
) -> Result<Face, AllocError>
    requires u { IsWithin (2 ^ 61 - 1) u.now }
    requires v { IsWithin (2 ^ 61 - 1) v.now }
    requires sweep { IsWithin (2 ^ 61 - 1) sweep.now }
    ensures { IfOk result (λ face. face ≡ face_at at (side sweep.now (u.now, v.now))) }
{
    let loops = side_loops(alloc, u, v, sweep)?;
    Ok(Face::of_loops(at, loops))
}

/// The corner of a loop that follows the one of a number.
fn corner_after(points: &[Vector], k: usize, first: &Vector) -> Vector
    requires corner { k < length points.now }
    requires points { All (IsWithin (2 ^ 61 - 1)) points.now }
    requires first { IsWithin (2 ^ 61 - 1) first.now }
    ensures value { result ≡ next_in first.now (drop (k + 1) points.now) }
    ensures within { IsWithin (2 ^ 61 - 1) result }
{
    if k + 1 < points.len() {
        return points[k + 1];
    }
    *first
}

/// Appends the faces of the edges of a loop that is swept.
fn push_sides(
    alloc: Global,
    faces: &mut Vec<Face>,
    at: u64,
    points: &[Vector],
    sweep: &Vector,
) -> Result<(), AllocError>
    requires points { IsLoop (2 ^ 61 - 1) points.now }
    requires sweep { IsWithin (2 ^ 61 - 1) sweep.now }
    ensures { OnOk result (faces.new.items ≡ faces.old.items ++ loop_sides at sweep.now points.now) }
{
    let first = points[0];
    for k in 0..points.len() {
        let next = corner_after(points, k, &first);
        faces.push(side_face(alloc, at, &points[k], &next, sweep)?)?;
    }
    Ok(())
}

/// Appends the faces of the edges of loops that are swept.
fn push_all_sides(
    alloc: Global,
    faces: &mut Vec<Face>,
    at: u64,
    loops: &[Loop],
    sweep: &Vector,
) -> Result<(), AllocError>
    requires loops { All (IsLoop (2 ^ 61 - 1)) loops.now }
    requires sweep { IsWithin (2 ^ 61 - 1) sweep.now }
    ensures { OnOk result (faces.new.items ≡ faces.old.items ++ flat_map (loop_sides at sweep.now) loops.now) }
{
    for l in loops {
        push_sides(alloc, faces, at, l.points(), sweep)?;
    }
    Ok(())
}

/// The faces of a profile that is swept, all by one number: the bottom with all loops, the top with the same loops moved
/// by the sweep, and for each edge of a loop the quadrilateral of its two ends and the two moved. The sizes of all
/// coordinates and of the sweep are below 2^61 nanometres.
///
/// # Errors
///
/// Want of memory.
pub fn prism_faces(
    alloc: Global,
    at: u64,
    loops: &Loops,
    sweep: &Vector,
) -> Result<Vec<Face>, AllocError>
    requires loops { IsOutline (2 ^ 61 - 1) loops.now }
    requires sweep { IsWithin (2 ^ 61 - 1) sweep.now }
    ensures { IfOk result (λ faces. faces.items ≡ prism_faces at loops.now sweep.now) }
{
    let mut faces = Vec::new(alloc);
    faces.push(bottom(alloc, at, loops)?)?;
    faces.push(top(alloc, at, loops, sweep)?)?;
    push_all_sides(alloc, &mut faces, at, loops.as_slice(), sweep)?;
    Ok(faces)
}

fn planar(x: i128, y: i128) -> Vector
    ensures { result ≡ planar x y }
{
    Vector { x, y, z: 0 }
}

/// The loop of the bottom of a block.
fn block_loops(alloc: Global, size: &Vector) -> Result<Loops, AllocError>
    ensures { IfOk result (λ loops. loops ≡ block_loops size.now) }
{
    let corners = [
        planar(0, 0),
        planar(size.x, 0),
        planar(size.x, size.y),
        planar(0, size.y),
    ];
    let mut loops = Loops::new(alloc);
    loops.push(Loop {
        points: Vec::from_array(alloc, corners)?,
    })?;
    Ok(loops)
}

/// The way from the bottom of a block to its top.
fn height_of(size: &Vector) -> Vector
    ensures { result ≡ upwards size.now.z }
{
    Vector {
        x: 0,
        y: 0,
        z: size.z,
    }
}

/// The faces of a block (IfcBlock) of three extents in nanometres, with a corner at 0. The sizes of the extents are below
/// 2^61.
///
/// # Errors
///
/// Want of memory.
pub fn block_faces(alloc: Global, at: u64, size: &Vector) -> Result<Vec<Face>, AllocError>
    requires { IsWithin (2 ^ 61 - 1) size.now }
    ensures { IfOk result (λ faces. faces.items ≡ block_faces at size.now) }
{
    let loops = block_loops(alloc, size)?;
    prism_faces(alloc, at, &loops, &height_of(size))
}
