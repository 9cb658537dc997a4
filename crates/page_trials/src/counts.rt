use exact_mesh::{ExactMesh, MeshFace, edge_count};
use std::alloc::{AllocError, Global};
use std::test::Fail;

/// The faces of a cube by the places of their corners, and then a face with one of them turned round.
const QUADS: [[usize; 4]; 7] = [
    [0, 3, 2, 1],
    [4, 5, 6, 7],
    [0, 1, 5, 4],
    [1, 2, 6, 5],
    [2, 3, 7, 6],
    [3, 0, 4, 7],
    [2, 3, 0, 1],
];

/// The first faces. Corners and planes are of no matter here.
fn mesh(alloc: Global, faces: usize) -> Result<ExactMesh, AllocError> {
    let mut mesh = ExactMesh {
        corners: Vec::new(alloc),
        faces: Vec::new(alloc),
    };
    for places in QUADS.iter().take(faces) {
        mesh.faces.push(MeshFace {
            plane: [0, 0, 1, 0],
            edges: Vec::new(alloc),
            corners: Vec::from_slice(alloc, places)?,
        })?;
    }
    Ok(mesh)
}

/// How often a directed edge stands in the first faces.
fn count(alloc: Global, faces: usize, u: usize, v: usize) -> Result<u128, AllocError> {
    Ok(edge_count(&mesh(alloc, faces)?, u, v))
}

#[test]
fn counts_directed_edges(rt: HostRuntime) -> Result<(), Fail> {
    for (faces, u, v, expected) in [
        (6, 0, 1, 1),
        (6, 1, 0, 1),
        (6, 3, 0, 1),
        (6, 0, 3, 1),
        (6, 0, 2, 0),
        (6, 0, 0, 0),
        (7, 0, 1, 2),
        (7, 1, 0, 1),
        (7, 1, 2, 2),
    ] {
        assert_eq!(rt; count(rt.alloc(), faces, u, v)?, expected);
    }
    Ok(())
}
