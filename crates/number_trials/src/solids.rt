ghost use Rattle.std.specs.Prelude.{◌≡◌, ◌+◌, IfOk};
ghost use Rattle.spec_shape.specs.Shapes.{count_triangles};
ghost use Rattle.solid_expr.specs.Views.{shape_of};

use ix_place::{Frame, Map};
use ix_profile::{Loops, rectangle};
use solid_expr::{Face, Solid, block_faces, count_triangles, is_bounded, lifted};
use spec_solid::BoolOp;
use spec_space::Vector;
use sqlite_items::{Boxed, Items};
use std::alloc::{AllocError, Global};

/// The corners of the first loop of one of the faces.
fn corners(faces: &[Face], k: usize) -> &[Vector] {
    match faces.get(k) {
        Some(face) => first_corners(face.loops()),
        None => &[],
    }
}

fn first_corners(loops: &Loops) -> &[Vector] {
    match loops.as_slice().first() {
        Some(found) => found.points(),
        None => &[],
    }
}

/// A block of four edges a face, which has 24 in all.
fn block(alloc: Global) -> Result<Solid, AllocError>
    ensures { IfOk result (λ s. count_triangles (shape_of s) ≡ 24) }
{
    let faces = block_faces(alloc, 7, &Vector { x: 2, y: 3, z: 4 })?;
    Ok(Solid::Faces {
        at: 7,
        map: Map::of_frame(&Frame::identity()),
        faces,
    })
}

fn half() -> Solid
    ensures { count_triangles (shape_of result) ≡ 1 }
{
    Solid::Half {
        at: 8,
        map: Map::of_frame(&Frame::identity()),
        agreement: true,
    }
}

fn combined(
    alloc: Global,
    operator: BoolOp,
    first: Solid,
    second: Solid,
) -> Result<Solid, AllocError>
    ensures { IfOk result (λ s. count_triangles (shape_of s) ≡ count_triangles (shape_of first) + count_triangles (shape_of second)) }
{
    let first = Boxed::new(alloc, first)?;
    Ok(Solid::Combined {
        at: 9,
        operator,
        first,
        second: Boxed::new(alloc, second)?,
    })
}

/// The corners of the top of a block.
const TOP: [Vector; 4] = [
    Vector { x: 0, y: 0, z: 4 },
    Vector { x: 2, y: 0, z: 4 },
    Vector { x: 2, y: 3, z: 4 },
    Vector { x: 0, y: 3, z: 4 },
];

/// The corners of its last side.
const LAST_SIDE: [Vector; 4] = [
    Vector { x: 0, y: 3, z: 0 },
    Vector { x: 0, y: 0, z: 0 },
    Vector { x: 0, y: 0, z: 4 },
    Vector { x: 0, y: 3, z: 4 },
];

#[test]
fn makes_faces(rt: HostRuntime) -> Result<(), AllocError> {
    let faces = block_faces(rt.alloc(), 7, &Vector { x: 2, y: 3, z: 4 })?;
    assert!(rt; faces.len() == 6);
    assert!(rt; corners(&faces, 1) == TOP.as_slice());
    assert!(rt; corners(&faces, 5) == LAST_SIDE.as_slice());
    Ok(())
}

/// The corners of a square, lowered by 5.
const LOWERED: [Vector; 4] = [
    Vector {
        x: -1,
        y: -1,
        z: -5,
    },
    Vector { x: 1, y: -1, z: -5 },
    Vector { x: 1, y: 1, z: -5 },
    Vector { x: -1, y: 1, z: -5 },
];

#[test]
fn lifts_loops(rt: HostRuntime) -> Result<(), AllocError> {
    let loops = lifted(rectangle(rt.alloc(), 2, 2)?, -5);
    assert!(rt; first_corners(&loops) == LOWERED.as_slice());
    Ok(())
}

/// A block united with a half-space.
fn union(alloc: Global) -> Result<Solid, AllocError> {
    let mut parts = Items::new(alloc);
    parts.push(block(alloc)?)?;
    parts.push(half())?;
    Ok(Solid::Union { at: 10, parts })
}

/// A block cut by a half-space.
fn cut(alloc: Global) -> Result<Solid, AllocError>
    ensures { IfOk result (λ s. count_triangles (shape_of s) ≡ 25) }
{
    combined(alloc, BoolOp::Difference, block(alloc)?, half())
}

/// A half-space combined with a block.
fn combined_half(alloc: Global, operator: BoolOp) -> Result<Solid, AllocError> {
    combined(alloc, operator, half(), block(alloc)?)
}

#[test]
fn counts_triangles(rt: HostRuntime) -> Result<(), AllocError> {
    assert!(rt; count_triangles(&cut(rt.alloc())?) == 25);
    Ok(())
}

#[test]
fn bounds_cuts_and_unions(rt: HostRuntime) -> Result<(), AllocError> {
    assert!(rt; is_bounded(&cut(rt.alloc())?));
    assert!(rt; !is_bounded(&union(rt.alloc())?));
    Ok(())
}

#[test]
fn bounds_what_is_made_of_a_half_space(rt: HostRuntime) -> Result<(), AllocError> {
    assert!(rt; !is_bounded(&combined_half(rt.alloc(), BoolOp::Difference)?));
    assert!(rt; is_bounded(&combined_half(rt.alloc(), BoolOp::Intersection)?));
    Ok(())
}
