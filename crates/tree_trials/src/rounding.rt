ghost use Rattle.std.specs.Prelude.{◌^◌, ◌-◌};
ghost use Rattle.spec_place.specs.Vectors.{IsWithin};

use crate::prisms::face;
use grid_round::{RoundFault, round_solid};
use grid_solid::{GridNode, GridSolid, GridTriangle};
use ix_place::{Dir, Frame, Map};
use solid_expr::{ElementSolid, Face, Item, Solid, block_faces};
use spec_refusal::Refusal;
use spec_space::Vector;
use std::alloc::{AllocError, Global};
use std::test::Fail;

/// A solid that is to be rounded.
#[derive(Clone, Copy)]
enum Shape {
    /// The cube of a number with a corner at 0, of a length in nanometres.
    Cube(u64, u32),
    /// Such a cube without its top.
    OpenCube(u64, u32),
    /// The half-space of a number, above or below the plane that lies 5 mm above the ground.
    Half(u64, bool),
    /// A tetrahedron with a right corner at 0 and legs of so many micrometres along the axes. Its slanted face has the
    /// number 14.
    Tetrahedron(u32, u32, u32),
}

/// A vector of so many nanometres along each axis.
fn diagonal(length: u32) -> Vector
    ensures { IsWithin (2 ^ 61 - 1) result }
{
    let length = i128::from(length);
    Vector {
        x: length,
        y: length,
        z: length,
    }
}

/// The faces of a cube without its top.
fn open_cube(alloc: Global, at: u64, length: u32) -> Result<Vec<Face>, AllocError> {
    let mut faces = block_faces(alloc, at, &diagonal(length))?;
    let _top = faces.remove(1);
    Ok(faces)
}

/// The faces of a tetrahedron.
fn tetrahedron(alloc: Global, x: u32, y: u32, z: u32) -> Result<Vec<Face>, Fail> {
    let (low, a, b, c) = ((0, 0, 0), (x, 0, 0), (0, y, 0), (0, 0, z));
    let mut faces = Vec::new(alloc);
    faces.push(face(alloc, 11, &[low, b, a])?)?;
    faces.push(face(alloc, 12, &[low, c, b])?)?;
    faces.push(face(alloc, 13, &[low, a, c])?)?;
    faces.push(face(alloc, 14, &[a, b, c])?)?;
    Ok(faces)
}

fn half(at: u64, upwards: bool) -> Result<Solid, Fail> {
    let axis = if upwards {
        1_000_000_000_000
    } else {
        -1_000_000_000_000
    };
    let frame = Frame::of_axes([0, 0, 5_000_000], Some(Dir::of_triple([0, 0, axis])?), None)?;
    Ok(Solid::Half {
        at,
        map: Map::of_frame(&frame),
        agreement: true,
    })
}

fn solid(alloc: Global, shape: Shape) -> Result<Solid, Fail> {
    let (at, faces) = match shape {
        Shape::Cube(at, length) => (at, block_faces(alloc, at, &diagonal(length))?),
        Shape::OpenCube(at, length) => (at, open_cube(alloc, at, length)?),
        Shape::Tetrahedron(x, y, z) => (7, tetrahedron(alloc, x, y, z)?),
        Shape::Half(at, upwards) => return half(at, upwards),
    };
    Ok(Solid::Faces {
        at,
        map: Map::of_frame(&Frame::identity()),
        faces,
    })
}

fn items(alloc: Global, at: u64, shape: Shape) -> Result<Vec<Item>, Fail> {
    let solid = solid(alloc, shape)?;
    Ok(vec![in alloc; Item { at, solid }]?)
}

/// An element of one item and one item of an opening.
fn element(alloc: Global, item: Shape, opening: Shape) -> Result<ElementSolid, Fail> {
    Ok(ElementSolid {
        number: 3,
        items: items(alloc, 1, item)?,
        openings: items(alloc, 2, opening)?,
        frame: Frame::identity(),
    })
}

/// Whether the first item is a shell of 24 triangles, of which one has the top corner second.
fn has_cube(solid: &GridSolid) -> bool {
    match solid.items.get(0) {
        Some(GridNode::Shell(shell)) => {
            let triangles = shell.triangles.as_slice();
            triangles.len() == 24 && has_corner(triangles, &Vector { x: 3, y: 3, z: 3 })
        }
        _ => false,
    }
}

/// Whether a corner is the second of one of the triangles.
fn has_corner(triangles: &[GridTriangle], corner: &Vector) -> bool {
    for triangle in triangles {
        if triangle.b == *corner {
            return true;
        }
    }
    false
}

/// Whether the first opening is the half-space in front of z = 5.
fn has_half_space(solid: &GridSolid) -> bool {
    match solid.openings.get(0) {
        Some(GridNode::HalfSpace { plane, in_front }) => {
            *in_front && plane.a == 0 && plane.b == 0 && plane.c == 1 && plane.d == 5
        }
        _ => false,
    }
}

/// A solid and an opening on a grid.
fn rounded(alloc: Global, item: Shape, opening: Shape) -> Result<GridSolid, Fail> {
    let element = element(alloc, item, opening)?;
    Ok(round_solid(alloc, &element, 1000)?)
}

/// On a grid of a millimetre.
#[test]
fn rounds_a_cube_and_reduces_a_half_space(rt: HostRuntime) -> Result<(), Fail> {
    let solid = rounded(rt.alloc(), Shape::Cube(7, 2_500_000), Shape::Half(8, false))?;
    assert!(rt; has_cube(&solid));
    assert!(rt; has_half_space(&solid));
    Ok(())
}

/// Why a solid and an opening are refused on a grid of a micrometre, if they are.
fn refusal(alloc: Global, item: Shape, opening: Shape) -> Result<Option<RoundFault>, Fail> {
    let element = element(alloc, item, opening)?;
    Ok(round_solid(alloc, &element, 1).err())
}

const HALF: Shape = Shape::Half(8, true);

/// Where the open cube of the trials is open.
const OPEN_EDGE: Refusal = Refusal::OpenShell {
    at: 9,
    from: Vector {
        x: 0,
        y: 0,
        z: 1000,
    },
    to: Vector {
        x: 0,
        y: 1000,
        z: 1000,
    },
};

/// Items, openings, and why they are refused.
const REFUSALS: [(Shape, Shape, Option<RoundFault>); 6] = [
    (Shape::Cube(7, 1_048_576_000), HALF, None),
    (
        Shape::Cube(7, 1_048_577_000),
        HALF,
        Some(RoundFault::Refused(Refusal::CornerTooFar { at: 7 })),
    ),
    (
        HALF,
        Shape::OpenCube(7, 1000),
        Some(RoundFault::Refused(Refusal::Unbounded { at: 1 })),
    ),
    (
        Shape::OpenCube(9, 1_000_000),
        Shape::Cube(7, 2_000_000_000),
        Some(RoundFault::Refused(OPEN_EDGE)),
    ),
    (Shape::Tetrahedron(8191, 8192, 1), HALF, None),
    (
        Shape::Tetrahedron(8192, 8193, 1),
        HALF,
        Some(RoundFault::Refused(Refusal::PlaneTooLarge { at: 14 })),
    ),
];

#[test]
fn names_the_first_refusal(rt: HostRuntime) -> Result<(), Fail> {
    for (item, opening, want) in &REFUSALS {
        assert!(rt;
            refusal(rt.alloc(), *item, *opening)? == *want,
            "not {want:?}"
        );
    }
    Ok(())
}
