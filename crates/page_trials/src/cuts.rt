ghost use Rattle.std.specs.Prelude.{All, IfOk, IfSome, OnOk};
ghost use Rattle.poly_frag.specs.Cycles.{IsCycle, IsFragment};

use edge_cut::cut_faces;
use exact_mesh::{ExactMesh, edge_count};
use face_walk::OutFace;
use plane_core::{Plane, PlaneBook, PlaneId};
use poly_frag::{Frag, Split, on_cube, split};
use std::alloc::{AllocError, Global};
use std::test::Fail;

/// The four numbers of a corner.
type Place = (i128, i128, i128, i128);

/// The size of a coordinate on a wall of the cube.
const M: i128 = 1_048_577;

/// A book with the walls of the cube and these planes behind them.
fn book_with(alloc: Global, planes: &[Option<Plane>]) -> Result<PlaneBook, AllocError> {
    let mut book = PlaneBook::new(alloc)?;
    for plane in planes {
        if let Some(plane) = plane
            && book.count() < 100
        {
            book.add(*plane)?;
        }
    }
    Ok(book)
}

/// What lies in the cube of the plane with the number.
fn whole(alloc: Global, book: &PlaneBook, support: u32) -> Result<Option<Frag>, AllocError>
    ensures { IfOk result (λ o. IfSome o (IsFragment book.now)) }
{
    if support as usize >= book.count() {
        return Ok(None);
    }
    on_cube(alloc, book, PlaneId { k: support })
}

/// The part of a fragment in front of a plane or behind it.
fn part_of(
    alloc: Global,
    book: &PlaneBook,
    frag: &Frag,
    by: u32,
    in_front: bool,
) -> Result<Option<Frag>, AllocError>
    requires { IsFragment book.now frag.now }
    ensures { IfOk result (λ o. IfSome o (IsFragment book.now)) }
{
    if by as usize >= book.count() || by == frag.support.k {
        return Ok(None);
    }
    match split(alloc, book, frag, PlaneId { k: by })? {
        Split::Both(front, back) => {
            if in_front {
                return Ok(Some(front));
            }
            Ok(Some(back))
        }
        _ => Ok(None),
    }
}

/// The part of a fragment, if there is one, in front of a plane or behind it.
fn part(
    alloc: Global,
    book: &PlaneBook,
    frag: Option<Frag>,
    by: u32,
    in_front: bool,
) -> Result<Option<Frag>, AllocError>
    requires { IfSome frag (IsFragment book.now) }
    ensures { IfOk result (λ o. IfSome o (IsFragment book.now)) }
{
    match frag {
        Some(frag) => part_of(alloc, book, &frag, by, in_front),
        None => Ok(None),
    }
}

/// Adds a piece.
fn push(
    faces: &mut Vec<OutFace>,
    book: &PlaneBook,
    frag: Option<Frag>,
    front_out: bool,
) -> Result<(), AllocError>
    requires old { All (λ o. IsCycle book.now o.frag) faces.old.items }
    requires fragment { IfSome frag (IsFragment book.now) }
    ensures { OnOk result (All (λ o. IsCycle book.now o.frag) faces.new.items) }
{
    if let Some(frag) = frag {
        faces.push(OutFace { frag, front_out })?;
    }
    Ok(())
}

/// Adds what lies of a piece in front of a plane as a piece of its own, and answers the rest; the piece whole where the book
/// has no such plane.
fn peel(
    alloc: Global,
    book: &PlaneBook,
    rest: Option<Frag>,
    by: u32,
    front_out: bool,
    faces: &mut Vec<OutFace>,
) -> Result<Option<Frag>, AllocError>
    requires old { All (λ o. IsCycle book.now o.frag) faces.old.items }
    requires fragment { IfSome rest (IsFragment book.now) }
    ensures faces { OnOk result (All (λ o. IsCycle book.now o.frag) faces.new.items) }
    ensures fragment { IfOk result (λ o. IfSome o (IsFragment book.now)) }
{
    let Some(rest) = rest else {
        return Ok(None);
    };
    if by as usize >= book.count() {
        return Ok(Some(rest));
    }
    let above = part_of(alloc, book, &rest, by, true)?;
    push(faces, book, above, front_out)?;
    part_of(alloc, book, &rest, by, false)
}

/// The part of plane 6 behind plane 7, and the parts in front of it, which planes 8, 9 and 10 cut from one another; each seen
/// from one side.
fn halves(alloc: Global, book: &PlaneBook, front_out: bool) -> Result<Vec<OutFace>, AllocError>
    ensures { IfOk result (λ faces. All (λ o. IsCycle book.now o.frag) faces.items) }
{
    let mut faces = Vec::new(alloc);
    let left = part(alloc, book, whole(alloc, book, 6)?, 7, false)?;
    push(&mut faces, book, left, front_out)?;
    let right = part(alloc, book, whole(alloc, book, 6)?, 7, true)?;
    let right = peel(alloc, book, right, 8, front_out, &mut faces)?;
    let right = peel(alloc, book, right, 9, front_out, &mut faces)?;
    let right = peel(alloc, book, right, 10, front_out, &mut faces)?;
    push(&mut faces, book, right, front_out)?;
    Ok(faces)
}

/// Whether the mesh's face at the place has these corners, in order.
fn has_corners(mesh: &ExactMesh, face: usize, places: &[Place]) -> bool {
    match mesh.faces.get(face) {
        Some(face) => {
            face.corners.len() == places.len()
                && face.edges.len() == places.len()
                && face
                    .corners
                    .iter()
                    .zip(places)
                    .all(|(i, p)| is_at(mesh, *i, *p))
        }
        None => false,
    }
}

/// Whether the mesh's face at the place has four corners and these, from one of its places on.
fn has_between(mesh: &ExactMesh, face: usize, from: usize, places: &[Place]) -> bool {
    match mesh.faces.get(face) {
        Some(face) => {
            face.corners.len() == places.len() + 4
                && face
                    .corners
                    .iter()
                    .skip(from)
                    .zip(places)
                    .all(|(i, p)| is_at(mesh, *i, *p))
        }
        None => false,
    }
}

/// Whether the mesh's corner with the number has these numbers.
fn is_at(mesh: &ExactMesh, number: usize, place: Place) -> bool {
    match mesh.corners.get(number) {
        Some(c) => (c.x, c.y, c.z, c.w) == place,
        None => false,
    }
}

/// The mesh of the halves over planes.
fn mesh_of(
    alloc: Global,
    planes: &[Option<Plane>],
    front_out: bool,
) -> Result<ExactMesh, AllocError> {
    let book = book_with(alloc, planes)?;
    let faces = halves(alloc, &book, front_out)?;
    cut_faces(alloc, &book, &faces)
}

/// Whether the mesh over the planes has so many faces and corners, and its first face these corners.
fn begins_with(
    alloc: Global,
    planes: &[Option<Plane>],
    faces: usize,
    corners: usize,
    places: &[Place],
) -> Result<bool, AllocError> {
    let mesh = mesh_of(alloc, planes, true)?;
    Ok(mesh.faces.len() == faces && mesh.corners.len() == corners && has_corners(&mesh, 0, places))
}

#[test]
fn cuts_an_edge_where_two_faces_meet(rt: HostRuntime) -> Result<(), Fail> {
    let planes = [
        Plane::reduced(0, 0, 1, 0),
        Plane::reduced(1, 0, 0, 0),
        Plane::reduced(0, 1, 0, 0),
    ];
    let left = [
        (-M, -M, 0, 1),
        (0, -M, 0, 1),
        (0, 0, 0, 1),
        (0, M, 0, 1),
        (-M, M, 0, 1),
    ];
    assert!(rt; begins_with(rt.alloc(), &planes, 3, 8, &left)?);
    Ok(())
}

/// The planes of a long edge, which three planes cut.
fn long() -> [Option<Plane>; 5] {
    [
        Plane::reduced(0, 0, 1, 0),
        Plane::reduced(1, 0, 0, 0),
        Plane::reduced(0, 1, 0, 5),
        Plane::reduced(0, 1, 0, 0),
        Plane::reduced(0, 1, 0, -7),
    ]
}

/// Whether the mesh seen from the back has five faces, and its first face these corners.
fn begins_at_the_back(alloc: Global, places: &[Place]) -> Result<bool, AllocError> {
    let mesh = mesh_of(alloc, &long(), false)?;
    Ok(mesh.faces.len() == 5 && has_corners(&mesh, 0, places))
}

/// How often a directed edge stands in that mesh.
fn count(alloc: Global, u: usize, v: usize) -> Result<u128, AllocError> {
    Ok(edge_count(&mesh_of(alloc, &long(), false)?, u, v))
}

#[test]
fn cuts_a_long_edge_in_order(rt: HostRuntime) -> Result<(), Fail> {
    // Seen from its back, the left half goes the other way round.
    let left = [
        (-M, M, 0, 1),
        (0, M, 0, 1),
        (0, 5, 0, 1),
        (0, 0, 0, 1),
        (0, -7, 0, 1),
        (0, -M, 0, 1),
        (-M, -M, 0, 1),
    ];
    assert!(rt; begins_at_the_back(rt.alloc(), &left)?);
    for (u, v, expected) in [
        (2, 3, 1),
        (3, 2, 1),
        (3, 4, 1),
        (4, 3, 1),
        (2, 4, 0),
        (0, 1, 1),
        (1, 0, 0),
    ] {
        assert!(rt; count(rt.alloc(), u, v)? == expected);
    }
    Ok(())
}

/// Whether the mesh over the planes has five faces, and its first face four corners and these, from its third on.
fn holds_from_the_third(
    alloc: Global,
    planes: &[Option<Plane>],
    places: &[Place],
) -> Result<bool, AllocError> {
    let mesh = mesh_of(alloc, planes, true)?;
    Ok(mesh.faces.len() == 5 && has_between(&mesh, 0, 2, places))
}

#[test]
fn orders_corners_of_great_weight(rt: HostRuntime) -> Result<(), Fail> {
    let planes = [
        Plane::reduced(67_108_859, 3, 5, 7),
        Plane::reduced(1, 67_108_837, 2, 11),
        Plane::reduced(1, 3, 67_108_819, 10_000_000_000_003),
        Plane::reduced(2, 5, 67_108_777, -13),
        Plane::reduced(5, 1, 67_108_763, -14_000_000_000_001),
    ];
    // The weights pass 2^64.
    let inside = [
        (
            2_348_825_015_567_691_512_729,
            939_548_760_758_658_300_877,
            -31_525_182_359_211_111_800_283_446_776,
            151_115_427_962_565_397_833_566,
        ),
        (
            31_525_145_986_221_334,
            49_539_529_261_978_621,
            -58_546_771_869_041_602,
            302_230_918_975_495_983_846_537,
        ),
        (
            -1_677_705_132_419_826_244_460,
            -671_063_795_220_940_606_091,
            22_517_987_399_441_655_394_877_653_394,
            151_115_554_063_295_371_539_651,
        ),
    ];
    assert!(rt; holds_from_the_third(rt.alloc(), &planes, &inside)?);
    Ok(())
}
