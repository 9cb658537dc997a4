ghost use Rattle.std.specs.Prelude.{◌≡◌, ◌+◌, ◌<◌, [], ◌∷◌, ◌++◌, length, map, All};
ghost use Rattle.spec_page.specs.Faces.{rotated};
ghost use Rattle.exact_mesh.specs.Meshes.{numbered_plane};
ghost use Rattle.face_check.specs.Sound.{are_on, are_behind, is_edge, are_edges};
ghost use Rattle.face_check.specs.Sizes.{IsSizedPlane};

use crate::directions::runs_along;
use crate::planes::{direction, plane_of, value_at};
use plane_core::Corner;
use spec_space::Plane;

/// Whether the corners at the places are on the plane.
pub(crate) fn are_on(corners: &[Corner], plane: &Plane, places: &[usize]) -> bool
    requires plane { IsSizedPlane plane.now }
    requires places { All (λ i. i < length corners.now) places.now }
    ensures { result ≡ are_on corners.now plane.now places.now }
{
    for place in places {
        if value_at(corners, plane, *place) != 0 {
            return false;
        }
    }
    true
}

/// Whether none of the corners at the places is in front of the plane.
fn are_behind(corners: &[Corner], plane: &Plane, places: &[usize]) -> bool
    requires plane { IsSizedPlane plane.now }
    requires places { All (λ i. i < length corners.now) places.now }
    ensures { result ≡ are_behind corners.now plane.now places.now }
{
    for place in places {
        if value_at(corners, plane, *place) > 0 {
            return false;
        }
    }
    true
}

/// Whether the second plane is that of an edge between two places of a face on the first plane.
fn is_edge(
    corners: &[Corner],
    plane: &Plane,
    edge: &Plane,
    places: &[usize],
    from: usize,
    to: usize,
) -> bool
    requires plane { IsSizedPlane plane.now }
    requires edge { IsSizedPlane edge.now }
    requires places { All (λ i. i < length corners.now) places.now }
    requires from { from < length corners.now }
    requires to { to < length corners.now }
    ensures { result ≡ is_edge corners.now plane.now edge.now places.now from to }
{
    if !are_on(corners, edge, &[from, to]) {
        return false;
    }
    are_behind(corners, edge, places) && runs_along(corners, &direction(plane, edge), from, to)
}

/// Whether the planes are those of the edges from the first place through the rest and back to it.
fn are_round(
    corners: &[Corner],
    plane: &Plane,
    edges: &[[i128; 4]],
    places: &[usize],
    first: usize,
    rest: &[usize],
) -> bool
    requires plane { IsSizedPlane plane.now }
    requires edges { All (λ e. IsSizedPlane (numbered_plane e)) edges.now }
    requires places { All (λ i. i < length corners.now) places.now }
    requires first { first < length corners.now }
    requires rest { All (λ i. i < length corners.now) rest.now }
    requires paired { length edges.now ≡ length rest.now + 1 }
    ensures { result ≡ are_edges corners.now plane.now places.now (map numbered_plane edges.now) (first ∷ rest.now) (rest.now ++ first ∷ []) }
{
    let mut from = first;
    for i in 0..rest.len() {
        let edge = plane_of(&edges[i]);
        if !is_edge(corners, plane, &edge, places, from, rest[i]) {
            return false;
        }
        from = rest[i];
    }
    let edge = plane_of(&edges[rest.len()]);
    is_edge(corners, plane, &edge, places, from, first)
}

/// Whether each edge of the face goes round it on its plane, with no corner in front.
pub(crate) fn are_edges(
    corners: &[Corner],
    plane: &Plane,
    edges: &[[i128; 4]],
    places: &[usize],
) -> bool
    requires plane { IsSizedPlane plane.now }
    requires edges { All IsSizedPlane (map numbered_plane edges.now) }
    requires places { All (λ i. i < length corners.now) places.now }
    requires paired { length edges.now ≡ length places.now }
    ensures { result ≡ are_edges corners.now plane.now places.now (map numbered_plane edges.now) places.now (rotated places.now) }
{
    match places {
        [] => true,
        [first, rest @ ..] => are_round(corners, plane, edges, places, *first, rest),
    }
}
