ghost use Rattle.std.specs.Prelude.{◌≡◌, ◌+◌, ◌*◌, ◌+ℤ◌, ◌<◌, ◌≤◌, ◌^◌, length, map, All, unsigned_abs};
ghost use Rattle.spec_num.specs.Words.{within_128_bits};
ghost use Rattle.spec_page.specs.World.{face_volume};
ghost use Rattle.exact_mesh.specs.Meshes.{vector_at, mesh_volume, way_to, tetrahedron, fan_of};
ghost use Rattle.exact_mesh.specs.Ranges.{AreNear};

use crate::mesh::MeshFace;
use crate::vectors::{minus, triple_product};
use ix_num::Wide;
use spec_space::Vector;

/// The way from the first corner to the one at a place.
fn way_to(corners: &[[i128; 3]], place: usize) -> Vector
    requires place { place < length corners.now }
    requires near { AreNear corners.now }
    ensures { result ≡ way_to corners.now place }
{
    minus(&corners[place], &corners[0])
}

/// The sixfold volume of the tetrahedron from the first corner over the triangle of three others.
fn tetrahedron(corners: &[[i128; 3]], first: usize, second: usize, third: usize) -> i128
    requires first { first < length corners.now }
    requires second { second < length corners.now }
    requires third { third < length corners.now }
    requires near { AreNear corners.now }
    ensures { result ≡ tetrahedron corners.now first second third }
{
    triple_product(
        &way_to(corners, first),
        &way_to(corners, second),
        &way_to(corners, third),
    )
}

/// Adds the sixfold volumes over the triangles of a fan.
fn add_fan(sum: &mut Wide, corners: &[[i128; 3]], first: usize, second: usize, rest: &[usize])
    requires first { first < length corners.now }
    requires second { second < length corners.now }
    requires rest { All (λ i. i < length corners.now) rest.now }
    requires near { AreNear corners.now }
    requires small { unsigned_abs sum.old ≤ 2 ^ 254 }
    ensures value { sum.new ≡ sum.old +ℤ fan_of corners.now first second rest.now }
    ensures size { unsigned_abs sum.new ≤ unsigned_abs sum.old + length rest.now * 2 ^ 127 }
{
    let mut from = second;
    for to in rest {
        sum.add(tetrahedron(corners, first, from, *to));
        from = *to;
    }
}

/// Adds the sixfold volumes over the triangles of a face.
fn add_face(sum: &mut Wide, corners: &[[i128; 3]], places: &[usize])
    requires places { All (λ i. i < length corners.now) places.now }
    requires near { AreNear corners.now }
    requires small { unsigned_abs sum.old ≤ 2 ^ 254 }
    ensures value { sum.new ≡ sum.old +ℤ face_volume (vector_at corners.now 0) (map (vector_at corners.now) places.now) }
    ensures size { unsigned_abs sum.new ≤ unsigned_abs sum.old + 2 ^ 191 }
{
    if let [first, second, rest @ ..] = places {
        add_fan(sum, corners, *first, *second, rest);
    }
}

/// The sixfold volume of the faces over these printed corners, in cubic micrometres: the sum over
/// the faces, with corners c1 to ck, and over i from 2 to k - 1, of the triple product of c1, ci and
/// c(i+1), each less the first of all corners (a rule of this project). `None` exactly where the
/// exact sum passes 128 bits. No coordinate may differ from the first corner's by more than 2^37.
/// It takes no memory.
pub fn sixfold(corners: &[[i128; 3]], faces: &[MeshFace]) -> Option<i128>
    requires within { All (λ f. All (λ i. i < length corners.now) f.corners.items) faces.now }
    requires near { AreNear corners.now }
    ensures { result ≡ within_128_bits (mesh_volume corners.now faces.now) }
{
    let mut sum = Wide::zero();
    for face in faces {
        add_face(&mut sum, corners, &face.corners);
    }
    sum.total()
}
