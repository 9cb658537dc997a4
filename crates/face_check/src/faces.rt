ghost use Rattle.std.specs.Prelude.{◌≡◌, length, map, All};
ghost use Rattle.exact_mesh.specs.Meshes.{face_of};
ghost use Rattle.face_check.specs.Sound.{is_flat, is_sound, first_not};
ghost use Rattle.face_check.specs.Sizes.{IsSizedFace};

use crate::edges::{are_edges, are_on};
use crate::planes::plane_of;
use exact_mesh::MeshFace;
use plane_core::Corner;

/// Whether each corner of the face is on its plane. It takes no memory.
pub fn is_flat(corners: &[Corner], face: &MeshFace) -> bool
    requires { IsSizedFace (length corners.now) (face_of face.now) }
    ensures { result ≡ is_flat corners.now (face_of face.now) }
{
    are_on(corners, &plane_of(&face.plane), &face.corners)
}

/// Whether the face is flat, and each of its edges on its plane and round the face, with no corner in front.
fn is_sound(corners: &[Corner], face: &MeshFace) -> bool
    requires { IsSizedFace (length corners.now) (face_of face.now) }
    ensures { result ≡ is_sound corners.now (face_of face.now) }
{
    is_flat(corners, face) && are_edges(corners, &plane_of(&face.plane), &face.edges, &face.corners)
}

/// The place of the first face that is not sound: some corner is not on its plane, or some edge is not on its plane, or does
/// not go round the face, or has a corner in front of it. `None` where each face is sound. It takes no memory.
pub fn first_unsound(corners: &[Corner], faces: &[MeshFace]) -> Option<usize>
    requires { All (IsSizedFace (length corners.now)) (map face_of faces.now) }
    ensures { result ≡ first_not (is_sound corners.now) 0 (map face_of faces.now) }
{
    for i in 0..faces.len() {
        if !is_sound(corners, &faces[i]) {
            return Some(i);
        }
    }
    None
}
