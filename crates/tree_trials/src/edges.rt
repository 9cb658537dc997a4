use shell_edges::open_edge;
use spec_space::Vector;
use std::alloc::{AllocError, Global};

/// Whole coordinates along x, y and z.
type Place = (i128, i128, i128);

fn vector(place: Place) -> Vector {
    let (x, y, z) = place;
    Vector { x, y, z }
}

/// Appends the edges of a loop of four corners.
fn push_edges(edges: &mut Vec<(Vector, Vector)>, corners: &[Place; 4]) -> Result<(), AllocError> {
    for k in 0..4 {
        let next = if k < 3 { k + 1 } else { 0 };
        edges.push((vector(corners[k]), vector(corners[next])))?;
    }
    Ok(())
}

/// The first edge without a partner of loops of four corners.
fn open_edge_of(
    alloc: Global,
    loops: &[[Place; 4]],
) -> Result<Option<(Vector, Vector)>, AllocError> {
    let mut edges = Vec::new(alloc);
    for corners in loops {
        push_edges(&mut edges, corners)?;
    }
    open_edge(alloc, edges.as_slice())
}

/// The faces of a cube, its top last.
const CUBE: [[Place; 4]; 6] = [
    [(0, 0, 0), (0, 1000, 0), (1000, 1000, 0), (1000, 0, 0)],
    [(0, 0, 0), (1000, 0, 0), (1000, 0, 1000), (0, 0, 1000)],
    [
        (1000, 0, 0),
        (1000, 1000, 0),
        (1000, 1000, 1000),
        (1000, 0, 1000),
    ],
    [
        (1000, 1000, 0),
        (0, 1000, 0),
        (0, 1000, 1000),
        (1000, 1000, 1000),
    ],
    [(0, 1000, 0), (0, 0, 0), (0, 0, 1000), (0, 1000, 1000)],
    [
        (0, 0, 1000),
        (1000, 0, 1000),
        (1000, 1000, 1000),
        (0, 1000, 1000),
    ],
];

/// The edge of the top that is missing first.
const MISSING: (Vector, Vector) = (
    Vector {
        x: 0,
        y: 0,
        z: 1000,
    },
    Vector {
        x: 0,
        y: 1000,
        z: 1000,
    },
);

const U: Vector = Vector { x: 2, y: 0, z: 0 };

const V: Vector = Vector { x: 1, y: 5, z: 0 };

/// Edges of which the first goes from a place to itself.
const LINES: [(Vector, Vector); 4] = [(U, U), (U, V), (V, U), (U, V)];

#[test]
fn tells_where_a_shell_is_open(rt: HostRuntime) -> Result<(), AllocError> {
    assert!(rt; open_edge_of(rt.alloc(), &CUBE[..5])? == Some(MISSING));
    assert!(rt; open_edge_of(rt.alloc(), &CUBE)?.is_none());
    assert!(rt; open_edge(rt.alloc(), &LINES)? == Some((V, U)));
    Ok(())
}
