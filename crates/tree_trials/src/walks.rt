ghost use Rattle.std.specs.Prelude.{All, IfOk};
ghost use Rattle.poly_frag.specs.Cycles.{IsFragment};
ghost use Rattle.tree_pool.specs.Pools.{IsLive};

use crate::books::{Numbers, book_of};
use crate::trees::{Side, inside, nested};
use face_walk::{OutFace, all_faces, faces_on};
use plane_core::{Corner, PlaneBook, PlaneId};
use poly_frag::corners;
use std::alloc::{AllocError, Global};
use tree_pool::{Pool, TreeId};

/// The planes x = 0, 2 and 4, numbers 6 to 8.
const PLANES: [Numbers; 3] = [[1, 0, 0, 0], [1, 0, 0, 2], [1, 0, 0, 4]];

/// Whether these are the numbers of the planes of the faces, and whether their fronts are outside.
fn are(faces: &[OutFace], wanted: &[Side]) -> bool {
    if faces.len() != wanted.len() {
        return false;
    }
    for (face, plane) in faces.iter().zip(wanted) {
        if face.frag.support.k != plane.0 || face.front_out != plane.1 {
            return false;
        }
    }
    true
}

/// The tree of two slabs that touch.
fn slabs(pool: &mut Pool) -> Result<TreeId, AllocError>
    ensures live { IfOk result (IsLive pool.new) }
{
    let first = inside(pool, &[(7, false), (6, true)])?;
    let yes = pool.leaf(true);
    nested(pool, &[(8, false), (7, true)], yes, first)
}

/// How many faces a tree has on the plane of number 7, if there is one.
fn count_between(
    alloc: Global,
    book: &PlaneBook,
    pool: &Pool,
    tree: TreeId,
) -> Result<Option<usize>, AllocError>
    requires live { IsLive pool.now tree }
{
    if book.count() < 8 {
        return Ok(None);
    }
    Ok(Some(faces_on(alloc, book, pool, tree, PlaneId { k: 7 })?.len()))
}

/// Whether a tree has faces on just these planes, with these sides outside.
fn has_faces(
    alloc: Global,
    book: &PlaneBook,
    pool: &Pool,
    tree: TreeId,
    wanted: &[Side],
) -> Result<bool, AllocError>
    requires live { IsLive pool.now tree }
{
    let faces = all_faces(alloc, book, pool, tree)?;
    Ok(are(&faces, wanted))
}

/// Two slabs that touch have no face between them.
#[test]
fn shows_two_slabs_that_touch(rt: HostRuntime) -> Result<(), AllocError> {
    let book = book_of(rt.alloc(), &PLANES)?;
    assert!(rt; book.count() == 9);
    let mut pool = Pool::new(rt.alloc())?;
    let tree = slabs(&mut pool)?;
    assert!(rt; has_faces(rt.alloc(), &book, &pool, tree, &[(6, false), (8, true)])?);
    assert!(rt; count_between(rt.alloc(), &book, &pool, tree)? == Some(0));
    Ok(())
}

/// The planes x = 1 / 4096, 2 / 4096 and so on, behind three others.
fn chained_planes(alloc: Global) -> Result<Vec<Numbers>, AllocError> {
    let mut planes = Vec::from_slice(alloc, &PLANES)?;
    for k in 1..=4096u16 {
        planes.push([4096, 0, 0, i64::from(k)])?;
    }
    Ok(planes)
}

/// The book of those planes.
fn chained_book(alloc: Global) -> Result<PlaneBook, AllocError> {
    let planes = chained_planes(alloc)?;
    book_of(alloc, planes.as_slice())
}

/// The tree of what lies in front of each of those planes, the last one looked at first.
fn chain(alloc: Global, pool: &mut Pool) -> Result<TreeId, AllocError>
    ensures live { IfOk result (IsLive pool.new) }
{
    let mut sides = Vec::new(alloc);
    for k in 1..=4096u16 {
        sides.push((8 + u32::from(k), true))?;
    }
    inside(pool, sides.as_slice())
}

/// Only the last plane, x = 1, has a face, of the number 4104.
#[test]
fn walks_a_chain_of_half_spaces(rt: HostRuntime) -> Result<(), AllocError> {
    let book = chained_book(rt.alloc())?;
    let mut pool = Pool::new(rt.alloc())?;
    let tree = chain(rt.alloc(), &mut pool)?;
    assert!(rt; has_faces(rt.alloc(), &book, &pool, tree, &[(4104, false)])?);
    Ok(())
}

/// Whole coordinates along x, y and z.
type Place = (i128, i128, i128);

/// A piece as it is told by hand: the number of its plane, whether the front is outside, and its lowest and its highest
/// corner. It is a rectangle whose sides are parallel to the axes.
type Told = (u32, bool, Place, Place);

/// A piece as it is found.
#[derive(Drop)]
struct Piece {
    plane: u32,
    front_out: bool,
    corners: Vec<Corner>,
}

/// The planes x = 0 to 3, numbers 6 to 9, then y = 0 to 3 and z = 0 to 3, up to number 17.
const GRID: [Numbers; 12] = [
    [1, 0, 0, 0],
    [1, 0, 0, 1],
    [1, 0, 0, 2],
    [1, 0, 0, 3],
    [0, 1, 0, 0],
    [0, 1, 0, 1],
    [0, 1, 0, 2],
    [0, 1, 0, 3],
    [0, 0, 1, 0],
    [0, 0, 1, 1],
    [0, 0, 1, 2],
    [0, 0, 1, 3],
];

/// A box by its six planes, the low and the high one along x, then y, then z.
type Walls = [u32; 6];

/// One tree in a box, and another elsewhere.
fn in_box(pool: &mut Pool, walls: Walls, inner: TreeId, outer: TreeId) -> Result<TreeId, AllocError>
    requires inner { IsLive pool.old inner }
    requires outer { IsLive pool.old outer }
    ensures live { IfOk result (IsLive pool.new) }
    ensures still_live { (id : TreeId) → IsLive pool.old id → IsLive pool.new id }
{
    let [left, right, front, back, low, high] = walls;
    let sides = [
        (high, false),
        (low, true),
        (back, false),
        (front, true),
        (right, false),
        (left, true),
    ];
    nested(pool, &sides, inner, outer)
}

/// What is done to a box: nothing, or it is united with another box, or loses what lies in that.
#[derive(Clone, Copy)]
enum Change {
    Whole,
    With(Walls),
    Less(Walls),
}

/// The tree of a box after a change.
fn changed(pool: &mut Pool, walls: Walls, change: Change) -> Result<TreeId, AllocError>
    ensures live { IfOk result (IsLive pool.new) }
{
    let no = pool.leaf(false);
    let yes = pool.leaf(true);
    match change {
        Change::Whole => in_box(pool, walls, yes, no),
        Change::With(other) => {
            let rest = in_box(pool, other, yes, no)?;
            in_box(pool, walls, yes, rest)
        }
        Change::Less(other) => {
            let rest = in_box(pool, other, no, yes)?;
            in_box(pool, walls, rest, no)
        }
    }
}

/// The pieces with their corners.
fn pieces(alloc: Global, book: &PlaneBook, faces: &[OutFace]) -> Result<Vec<Piece>, AllocError>
    requires { All (λ o. IsFragment book.now o.frag) faces.now }
{
    let mut pieces = Vec::new(alloc);
    for face in faces {
        pieces.push(Piece {
            plane: face.frag.support.k,
            front_out: face.front_out,
            corners: corners(alloc, book, &face.frag)?,
        })?;
    }
    Ok(pieces)
}

/// Whether the place is among the corners.
fn has(corners: &[Corner], place: Place) -> bool {
    for c in corners {
        if c.x == place.0 && c.y == place.1 && c.z == place.2 && c.w == 1 {
            return true;
        }
    }
    false
}

/// Whether the corners are the four of the rectangle between two places.
fn are_of(corners: &[Corner], low: Place, high: Place) -> bool {
    for k in 0..8 {
        let x = if k & 1 == 0 { low.0 } else { high.0 };
        let y = if k & 2 == 0 { low.1 } else { high.1 };
        let z = if k & 4 == 0 { low.2 } else { high.2 };
        if !has(corners, (x, y, z)) {
            return false;
        }
    }
    corners.len() == 4
}

/// Whether the piece is as told.
fn is(piece: &Piece, told: &Told) -> bool {
    let (plane, front_out, low, high) = *told;
    piece.plane == plane && piece.front_out == front_out && are_of(&piece.corners, low, high)
}

/// Whether a piece is as told.
fn has_piece(pieces: &[Piece], told: &Told) -> bool {
    for piece in pieces {
        if is(piece, told) {
            return true;
        }
    }
    false
}

/// Whether each piece that is told is found.
fn have(pieces: &[Piece], told: &[Told]) -> bool {
    for wanted in told {
        if !has_piece(pieces, wanted) {
            return false;
        }
    }
    true
}

/// The pieces of a box after a change.
fn pieces_of(alloc: Global, walls: Walls, change: Change) -> Result<Vec<Piece>, AllocError> {
    let book = book_of(alloc, &GRID)?;
    let mut pool = Pool::new(alloc)?;
    let tree = changed(&mut pool, walls, change)?;
    let faces = all_faces(alloc, &book, &pool, tree)?;
    pieces(alloc, &book, &faces)
}

/// The walls of the cube from 0 to 1.
const CUBE: Walls = [6, 7, 10, 11, 14, 15];

/// The six faces of the cube from 0 to 1.
const OF_CUBE: [Told; 6] = [
    (6, false, (0, 0, 0), (0, 1, 1)),
    (7, true, (1, 0, 0), (1, 1, 1)),
    (10, false, (0, 0, 0), (1, 0, 1)),
    (11, true, (0, 1, 0), (1, 1, 1)),
    (14, false, (0, 0, 0), (1, 1, 0)),
    (15, true, (0, 0, 1), (1, 1, 1)),
];

/// The cube from 0 to 3 less the cube from 1 to 2: the hole has faces that look into it. Its planes cut the outer faces along
/// y and z.
const OF_HOLLOW: [Told; 24] = [
    (6, false, (0, 0, 0), (0, 3, 3)),
    (9, true, (3, 0, 0), (3, 3, 3)),
    (10, false, (0, 0, 0), (1, 0, 3)),
    (10, false, (1, 0, 0), (2, 0, 3)),
    (10, false, (2, 0, 0), (3, 0, 3)),
    (13, true, (0, 3, 0), (1, 3, 3)),
    (13, true, (1, 3, 0), (2, 3, 3)),
    (13, true, (2, 3, 0), (3, 3, 3)),
    (14, false, (0, 0, 0), (1, 3, 0)),
    (14, false, (2, 0, 0), (3, 3, 0)),
    (14, false, (1, 0, 0), (2, 1, 0)),
    (14, false, (1, 1, 0), (2, 2, 0)),
    (14, false, (1, 2, 0), (2, 3, 0)),
    (17, true, (0, 0, 3), (1, 3, 3)),
    (17, true, (2, 0, 3), (3, 3, 3)),
    (17, true, (1, 0, 3), (2, 1, 3)),
    (17, true, (1, 1, 3), (2, 2, 3)),
    (17, true, (1, 2, 3), (2, 3, 3)),
    (7, true, (1, 1, 1), (1, 2, 2)),
    (8, false, (2, 1, 1), (2, 2, 2)),
    (11, true, (1, 1, 1), (2, 1, 2)),
    (12, false, (1, 2, 1), (2, 2, 2)),
    (15, true, (1, 1, 1), (2, 2, 1)),
    (16, false, (1, 1, 2), (2, 2, 2)),
];

/// The cube from 0 to 1 and the next one along x. The square between them is no face.
const WITH_A_FACE: [Told; 10] = [
    (6, false, (0, 0, 0), (0, 1, 1)),
    (8, true, (2, 0, 0), (2, 1, 1)),
    (10, false, (0, 0, 0), (1, 0, 1)),
    (10, false, (1, 0, 0), (2, 0, 1)),
    (11, true, (0, 1, 0), (1, 1, 1)),
    (11, true, (1, 1, 0), (2, 1, 1)),
    (14, false, (0, 0, 0), (1, 1, 0)),
    (14, false, (1, 0, 0), (2, 1, 0)),
    (15, true, (0, 0, 1), (1, 1, 1)),
    (15, true, (1, 0, 1), (2, 1, 1)),
];

/// Those of the second cube, moved on along y too, beside the six of the first.
const WITH_AN_EDGE: [Told; 6] = [
    (7, false, (1, 1, 0), (1, 2, 1)),
    (8, true, (2, 1, 0), (2, 2, 1)),
    (11, false, (1, 1, 0), (2, 1, 1)),
    (12, true, (1, 2, 0), (2, 2, 1)),
    (14, false, (1, 1, 0), (2, 2, 0)),
    (15, true, (1, 1, 1), (2, 2, 1)),
];

/// Those of the second cube, moved on along x, y and z.
const WITH_A_CORNER: [Told; 6] = [
    (7, false, (1, 1, 1), (1, 2, 2)),
    (8, true, (2, 1, 1), (2, 2, 2)),
    (11, false, (1, 1, 1), (2, 1, 2)),
    (12, true, (1, 2, 1), (2, 2, 2)),
    (15, false, (1, 1, 1), (2, 2, 1)),
    (16, true, (1, 1, 2), (2, 2, 2)),
];

/// A block of 2 by 1 by 1 and a cube on its first half. Planes of the cube cut the faces of the block along y, and its floor.
/// The square under the cube is no face, and the one beside it is.
const OF_STEP: [Told; 14] = [
    (6, false, (0, 0, 0), (0, 1, 1)),
    (6, false, (0, 0, 1), (0, 1, 2)),
    (7, true, (1, 0, 1), (1, 1, 2)),
    (8, true, (2, 0, 0), (2, 1, 1)),
    (10, false, (0, 0, 0), (1, 0, 1)),
    (10, false, (1, 0, 0), (2, 0, 1)),
    (10, false, (0, 0, 1), (1, 0, 2)),
    (11, true, (0, 1, 0), (1, 1, 1)),
    (11, true, (1, 1, 0), (2, 1, 1)),
    (11, true, (0, 1, 1), (1, 1, 2)),
    (14, false, (0, 0, 0), (1, 1, 0)),
    (14, false, (1, 0, 0), (2, 1, 0)),
    (15, true, (1, 0, 1), (2, 1, 1)),
    (16, true, (0, 0, 2), (1, 1, 2)),
];

/// Boxes and what is done to them, and the pieces that are left: those of one list, and those of another.
const BOXES: [(Walls, Change, &[Told], &[Told]); 6] = [
    (CUBE, Change::Whole, &OF_CUBE, &[]),
    (
        [6, 9, 10, 13, 14, 17],
        Change::Less([7, 8, 11, 12, 15, 16]),
        &OF_HOLLOW,
        &[],
    ),
    // Cubes that touch have no face where they touch, and no face is cut there.
    (
        CUBE,
        Change::With([7, 8, 10, 11, 14, 15]),
        &WITH_A_FACE,
        &[],
    ),
    (
        CUBE,
        Change::With([7, 8, 11, 12, 14, 15]),
        &OF_CUBE,
        &WITH_AN_EDGE,
    ),
    (
        CUBE,
        Change::With([7, 8, 11, 12, 15, 16]),
        &OF_CUBE,
        &WITH_A_CORNER,
    ),
    (
        [6, 8, 10, 11, 14, 15],
        Change::With([6, 7, 10, 11, 15, 16]),
        &OF_STEP,
        &[],
    ),
];

/// Whether a box after a change has just these pieces.
fn has_pieces(
    alloc: Global,
    walls: Walls,
    change: Change,
    first: &[Told],
    second: &[Told],
) -> Result<bool, AllocError> {
    let pieces = pieces_of(alloc, walls, change)?;
    Ok(pieces.len() == first.len() + second.len() && have(&pieces, first) && have(&pieces, second))
}

#[test]
fn walks_boxes(rt: HostRuntime) -> Result<(), AllocError> {
    for (walls, change, first, second) in &BOXES {
        assert!(rt;
            has_pieces(rt.alloc(), *walls, *change, first, second)?,
            "at {walls:?}"
        );
    }
    Ok(())
}
