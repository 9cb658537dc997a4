ghost use Rattle.std.specs.Prelude.{◌<◌, All, IfOk};
ghost use Rattle.world_print.specs.Ranges.{IsPrintable};

use crate::images::first_far;
use crate::volumes::is_volume;
use exact_mesh::MeshFace;
use ix_place::Frame;
use plane_core::Corner;
use std::alloc::{AllocError, Global};

/// The place of the far one of a single corner, whose image is at 0.5, -0.5 and 3 micrometres.
fn far(printed: [i128; 3]) -> Option<usize>
    requires { IsPrintable printed }
{
    let corner = Corner {
        x: 1,
        y: -1,
        z: 6,
        w: 2,
    };
    first_far(&Frame::identity(), 1, &[corner], &[printed])
}

#[test]
fn takes_half_a_micrometre_as_near(rt: HostRuntime) {
    assert_eq!(rt; far([1, 0, 3]), None);
    assert_eq!(rt; far([0, -1, 3]), None);
    assert_eq!(rt; far([2, 0, 3]), Some(0));
    assert_eq!(rt; far([1, 1, 3]), Some(0));
    assert_eq!(rt; far([1, 0, 4]), Some(0));
}

fn triangle(alloc: Global, places: [usize; 3]) -> Result<MeshFace, AllocError>
    requires { All (λ i. i < 4) places }
    ensures { IfOk result (λ f. All (λ i. i < 4) f.corners.items) }
{
    // The planes are of no matter here.
    Ok(MeshFace {
        plane: [0, 0, 1, 0],
        edges: Vec::new(alloc),
        corners: Vec::from_array(alloc, places)?,
    })
}

#[test]
fn compares_volumes(rt: HostRuntime) -> Result<(), AllocError> {
    let alloc = rt.alloc();
    let corners = [[0, 0, 0], [2, 0, 0], [0, 2, 0], [0, 0, 2]];
    let faces = [
        triangle(alloc, [0, 2, 1])?,
        triangle(alloc, [0, 1, 3])?,
        triangle(alloc, [0, 3, 2])?,
        triangle(alloc, [1, 2, 3])?,
    ];
    assert_eq!(rt; is_volume(Some(8), &corners, &faces), true);
    assert_eq!(rt; is_volume(Some(7), &corners, &faces), false);
    assert_eq!(rt; is_volume(None, &corners, &faces), false);
    Ok(())
}
