ghost use Rattle.std.specs.Prelude.{◌≡◌, map};
ghost use Rattle.std.specs.List.{count_by, zip};
ghost use Rattle.spec_page.specs.Faces.{rotated, goes_between, edge_count};
ghost use Rattle.exact_mesh.specs.Meshes.{face_of};

use plane_core::Corner;

/// A face of a mesh. Edge i goes from corner i to the next, and the last one to the first corner.
#[derive(Drop)]
pub struct MeshFace {
    /// The face's plane `ax + by + cz = d` in grid steps, with its normal outwards.
    pub plane: [i128; 4],
    /// For each edge a plane through it, with its normal out of the face.
    pub edges: Vec<[i128; 4]>,
    /// The places of its corners among those of the mesh, from 0.
    pub corners: Vec<usize>,
}

/// A mesh with exact corners, in grid steps.
#[derive(Drop)]
pub struct ExactMesh {
    /// Its corners; faces name them by their places.
    pub corners: Vec<Corner>,
    /// Its faces, seen from outside.
    pub faces: Vec<MeshFace>,
}

/// The number of places of one face at which u is followed by v.
fn count_round(places: &[usize], u: usize, v: usize) -> usize
    ensures { result ≡ count_by (goes_between u v) (zip places.now (rotated places.now)) }
{
    let [first, rest @ ..] = places else {
        return 0;
    };
    let mut count = 0;
    let mut from = *first;
    for to in rest {
        if from == u && *to == v {
            count += 1;
        }
        from = *to;
    }
    if from == u && *first == v {
        count += 1;
    }
    count
}

/// How often the directed edge from corner u to corner v stands in the mesh: the number of places
/// over the faces at which u is followed by v, the last corner of a face being followed by its
/// first. It takes no memory.
pub fn edge_count(m: &ExactMesh, u: usize, v: usize) -> u128
    ensures { result ≡ edge_count (map face_of m.now.faces.items) u v }
{
    let mut count = 0;
    for face in &m.faces {
        count += count_round(&face.corners, u, v) as u128;
    }
    count
}
