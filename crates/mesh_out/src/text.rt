ghost use Rattle.std.specs.Prelude.{◌≡◌, ◌++◌, OnOk, IfOk, codes};
ghost use Rattle.std.specs.List.{flat_map};
ghost use Rattle.std.specs.Fmt.{decimal};
ghost use Rattle.spec_page.specs.Lines.{number_line, spaced_metres};
ghost use Rattle.exact_mesh.specs.Meshes.{vector_of, face_of};
ghost use Rattle.world_print.specs.Elements.{element_of};
ghost use Rattle.mesh_out.specs.Off.{spaced_count, place_line, face_line, block_head, off_block};

use exact_mesh::MeshFace;
use std::alloc::{AllocError, Global};
use world_print::{ElementMesh, metres};

/// Appends a number in decimal.
fn put_count(text: &mut Vec<u8>, count: usize) -> Result<(), AllocError>
    ensures { OnOk result (text.new.items ≡ text.old.items ++ decimal count) }
{
    let mut buffer = itoa::Buffer::new();
    text.extend_from_slice(buffer.format(count).as_bytes())
}

/// Appends a number behind a space.
fn put_spaced_count(text: &mut Vec<u8>, count: usize) -> Result<(), AllocError>
    ensures { OnOk result (text.new.items ≡ text.old.items ++ spaced_count count) }
{
    text.push(b' ')?;
    put_count(text, count)
}

/// Appends the line that names an element by its number.
fn put_name(text: &mut Vec<u8>, number: u64) -> Result<(), AllocError>
    ensures { OnOk result (text.new.items ≡ text.old.items ++ number_line (codes "# ") number) }
{
    let mut buffer = itoa::Buffer::new();
    text.extend_from_slice(b"# ")?;
    text.extend_from_slice(buffer.format(number).as_bytes())?;
    text.push(b'\n')?;
    Ok(())
}

/// Appends how many corners and faces there are, and no edge.
fn put_sizes(text: &mut Vec<u8>, corners: usize, faces: usize) -> Result<(), AllocError>
    ensures { OnOk result (text.new.items ≡ text.old.items ++ (decimal corners ++ spaced_count faces ++ codes " 0\n")) }
{
    put_count(text, corners)?;
    put_spaced_count(text, faces)?;
    text.extend_from_slice(b" 0\n")
}

/// Appends a number of micrometres in metres, behind a space.
fn put_spaced_metres(text: &mut Vec<u8>, micro: i128) -> Result<(), AllocError>
    ensures { OnOk result (text.new.items ≡ text.old.items ++ spaced_metres micro) }
{
    text.push(b' ')?;
    metres(text, micro)
}

/// Appends a place on a line, in metres; its coordinates are in micrometres.
fn put_place(text: &mut Vec<u8>, x: i128, y: i128, z: i128) -> Result<(), AllocError>
    ensures { OnOk result (text.new.items ≡ text.old.items ++ place_line (record { x = x; y = y; z = z })) }
{
    metres(text, x)?;
    put_spaced_metres(text, y)?;
    put_spaced_metres(text, z)?;
    text.push(b'\n')?;
    Ok(())
}

/// Appends a printed corner on a line.
fn put_corner(text: &mut Vec<u8>, printed: &[i128; 3]) -> Result<(), AllocError>
    ensures { OnOk result (text.new.items ≡ text.old.items ++ place_line (vector_of printed.now)) }
{
    put_place(text, printed[0], printed[1], printed[2])
}

fn put_corners(text: &mut Vec<u8>, corners: &[[i128; 3]]) -> Result<(), AllocError>
    ensures { OnOk result (text.new.items ≡ text.old.items ++ flat_map (λ v. place_line (vector_of v)) corners.now) }
{
    for corner in corners {
        put_corner(text, corner)?;
    }
    Ok(())
}

fn put_places(text: &mut Vec<u8>, places: &[usize]) -> Result<(), AllocError>
    ensures { OnOk result (text.new.items ≡ text.old.items ++ flat_map spaced_count places.now) }
{
    for place in places {
        put_spaced_count(text, *place)?;
    }
    Ok(())
}

/// Appends how many corners a face has, and their places from 0.
fn put_face(text: &mut Vec<u8>, face: &MeshFace) -> Result<(), AllocError>
    ensures { OnOk result (text.new.items ≡ text.old.items ++ face_line (face_of face.now)) }
{
    put_count(text, face.corners.len())?;
    put_places(text, &face.corners)?;
    text.push(b'\n')?;
    Ok(())
}

fn put_faces(text: &mut Vec<u8>, faces: &[MeshFace]) -> Result<(), AllocError>
    ensures { OnOk result (text.new.items ≡ text.old.items ++ flat_map (λ f. face_line (face_of f)) faces.now) }
{
    for face in faces {
        put_face(text, face)?;
    }
    Ok(())
}

/// Appends the first lines of the block of a mesh.
fn put_head(text: &mut Vec<u8>, mesh: &ElementMesh) -> Result<(), AllocError>
    ensures { OnOk result (text.new.items ≡ text.old.items ++ block_head (element_of mesh.now)) }
{
    put_name(text, mesh.number)?;
    text.extend_from_slice(b"OFF\n")?;
    put_sizes(text, mesh.printed.len(), mesh.mesh.faces.len())
}

/// The block of a mesh in OFF text. The error is want of memory.
pub(crate) fn off_block(alloc: Global, mesh: &ElementMesh) -> Result<Vec<u8>, AllocError>
    ensures { IfOk result (λ text. text.items ≡ off_block (element_of mesh.now)) }
{
    let mut text = Vec::new(alloc);
    put_head(&mut text, mesh)?;
    put_corners(&mut text, &mesh.printed)?;
    put_faces(&mut text, &mesh.mesh.faces)?;
    Ok(text)
}
