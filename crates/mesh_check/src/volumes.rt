ghost use Rattle.std.specs.Prelude.{◌≡◌, ◌↔◌, ◌<◌, IsTrue, length, All};
ghost use Rattle.spec_num.specs.Words.{within_128_bits};
ghost use Rattle.exact_mesh.specs.Meshes.{mesh_volume};
ghost use Rattle.exact_mesh.specs.Ranges.{AreNear};

use exact_mesh::{MeshFace, sixfold};

fn are_same(first: Option<i128>, second: Option<i128>) -> bool
    ensures { IsTrue result ↔ (first ≡ second) }
{
    match (first, second) {
        (Some(first), Some(second)) => first == second,
        (None, None) => true,
        _ => false,
    }
}

/// Whether the sixfold volume is that of the printed corners, and told exactly where it is within 128 bits.
pub(crate) fn is_volume(six: Option<i128>, printed: &[[i128; 3]], faces: &[MeshFace]) -> bool
    requires within { All (λ f. All (λ i. i < length printed.now) f.corners.items) faces.now }
    requires near { AreNear printed.now }
    ensures { IsTrue result ↔ (six ≡ within_128_bits (mesh_volume printed.now faces.now)) }
{
    are_same(six, sixfold(printed, faces))
}
