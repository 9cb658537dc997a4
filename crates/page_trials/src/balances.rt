use edge_balance::unbalanced;
use exact_mesh::MeshFace;
use std::alloc::{AllocError, Global};
use std::test::Fail;

/// Three faces of a tetrahedron.
const THREE: [[usize; 3]; 3] = [[0, 2, 1], [0, 1, 3], [0, 3, 2]];

/// Adds a face. The planes are of no matter here.
fn push(alloc: Global, faces: &mut Vec<MeshFace>, places: &[usize]) -> Result<(), AllocError> {
    faces.push(MeshFace {
        plane: [0, 0, 1, 0],
        edges: Vec::new(alloc),
        corners: Vec::from_slice(alloc, places)?,
    })?;
    Ok(())
}

/// The least pair that is not balanced in the three faces and a fourth.
fn least(alloc: Global, fourth: [usize; 3]) -> Result<Option<(usize, usize)>, AllocError> {
    let mut faces = Vec::new(alloc);
    for places in &THREE {
        push(alloc, &mut faces, places)?;
    }
    push(alloc, &mut faces, &fourth)?;
    unbalanced(alloc, &faces)
}

#[test]
fn finds_the_least_pair_of_a_turned_face(rt: HostRuntime) -> Result<(), Fail> {
    assert!(rt; least(rt.alloc(), [1, 2, 3])?.is_none());
    assert!(rt; least(rt.alloc(), [3, 2, 1])? == Some((1, 2)));
    Ok(())
}
