ghost use Rattle.std.specs.Prelude.{◌≡◌, ◌<◌, ◌+◌, ◌^◌, ◌++◌, All, codes};
ghost use Rattle.std.specs.List.{flat_map};
ghost use Rattle.spec_page.specs.Lines.{plane_line, corner_lines, index_text, indices_line, face_lines};
ghost use Rattle.plane_core.specs.Views.{point_of};
ghost use Rattle.exact_mesh.specs.Meshes.{numbered_plane, vector_of, face_of};
ghost use Rattle.world_print.specs.Elements.{page_corners};
ghost use Rattle.world_print.specs.Appended.{IsAppended};

use crate::lines::{put_corner, put_plane};
use crate::numbers::put_number;
use exact_mesh::MeshFace;
use spec_page::Corner;
use spec_space::{Plane, Point, Vector};
use std::alloc::AllocError;

fn plane(numbers: &[i128; 4]) -> Plane
    ensures { result ≡ numbered_plane numbers.now }
{
    let [a, b, c, d] = *numbers;
    Plane { a, b, c, d }
}

fn vector(numbers: &[i128; 3]) -> Vector
    ensures { result ≡ vector_of numbers.now }
{
    let [x, y, z] = *numbers;
    Vector { x, y, z }
}

fn page_corner(corner: &plane_core::Corner, printed: &[i128; 3]) -> Corner
    ensures { result ≡ record { exact = point_of corner.now; printed = vector_of printed.now } }
{
    Corner {
        exact: Point {
            x: corner.x,
            y: corner.y,
            z: corner.z,
            w: corner.w,
        },
        printed: vector(printed),
    }
}

/// Appends the exact corners with the printed ones.
pub(crate) fn put_corners(
    page: &mut Vec<u8>,
    corners: &[plane_core::Corner],
    printed: &[[i128; 3]],
) -> Result<(), AllocError>
    ensures { IsAppended result page.old.items page.new.items (flat_map corner_lines (page_corners corners.now printed.now)) }
{
    let mut corners = corners;
    let mut printed = printed;
    while let [corner, more @ ..] = corners {
        let [place, places @ ..] = printed else {
            return Ok(());
        };
        put_corner(page, &page_corner(corner, place))?;
        corners = more;
        printed = places;
    }
    Ok(())
}

fn put_edges(page: &mut Vec<u8>, edges: &[[i128; 4]]) -> Result<(), AllocError>
    ensures { IsAppended result page.old.items page.new.items (flat_map (λ e. plane_line (codes "#e") (numbered_plane e)) edges.now) }
{
    for edge in edges {
        put_plane(page, b"#e", &plane(edge))?;
    }
    Ok(())
}

/// Appends the number of a corner over the whole page, behind a space.
fn put_index(page: &mut Vec<u8>, before: u128, place: usize) -> Result<(), AllocError>
    requires { before + place + 1 < 2 ^ 128 }
    ensures { IsAppended result page.old.items page.new.items (index_text before place) }
{
    page.push(b' ')?;
    put_number(page, before + place as u128 + 1)
}

fn put_places(page: &mut Vec<u8>, before: u128, places: &[usize]) -> Result<(), AllocError>
    requires { All (λ i. before + i + 1 < 2 ^ 128) places.now }
    ensures { IsAppended result page.old.items page.new.items (flat_map (index_text before) places.now) }
{
    for place in places {
        put_index(page, before, *place)?;
    }
    Ok(())
}

fn put_indices(page: &mut Vec<u8>, before: u128, places: &[usize]) -> Result<(), AllocError>
    requires { All (λ i. before + i + 1 < 2 ^ 128) places.now }
    ensures { IsAppended result page.old.items page.new.items (indices_line before places.now) }
{
    page.push(b'f')?;
    put_places(page, before, places)?;
    page.push(b'\n')?;
    Ok(())
}

fn put_face(page: &mut Vec<u8>, before: u128, face: &MeshFace) -> Result<(), AllocError>
    requires { All (λ i. before + i + 1 < 2 ^ 128) face.now.corners.items }
    ensures { IsAppended result page.old.items page.new.items (face_lines before (face_of face.now)) }
{
    put_plane(page, b"#p", &plane(&face.plane))?;
    put_edges(page, &face.edges)?;
    put_indices(page, before, &face.corners)
}

pub(crate) fn put_faces(
    page: &mut Vec<u8>,
    before: u128,
    faces: &[MeshFace],
) -> Result<(), AllocError>
    requires { All (λ f. All (λ i. before + i + 1 < 2 ^ 128) f.corners.items) faces.now }
    ensures { IsAppended result page.old.items page.new.items (flat_map (λ f. face_lines before (face_of f)) faces.now) }
{
    for face in faces {
        put_face(page, before, face)?;
    }
    Ok(())
}
