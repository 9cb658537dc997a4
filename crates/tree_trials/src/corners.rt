ghost use Rattle.std.specs.Prelude.{◌<◌, ◌∷◌, [], length, IfSome};
ghost use Rattle.corner_book.specs.Corners.{MeetIn, IsMadeWith};

use corner_book::{CornerBook, before_on_line};
use plane_core::{Corner, PlaneBook, PlaneId, meet};
use std::alloc::{AllocError, Global};

/// The corner in which three planes of the book meet, if there is one.
fn meeting(book: &PlaneBook, p: PlaneId, q: PlaneId, r: PlaneId) -> Option<Corner>
    requires first { p.k < length book.now }
    requires second { q.k < length book.now }
    requires third { r.k < length book.now }
    ensures { IfSome result (MeetIn book.now (p ∷ q ∷ r ∷ [])) }
{
    meet(book.plane(p), book.plane(q), book.plane(r))
}

/// Adds the corner in which the wall of the greatest x meets two others, and answers its place; none where there is no such
/// corner.
fn add_at(
    book: &PlaneBook,
    corners: &mut CornerBook,
    q: u32,
    r: u32,
) -> Result<Option<usize>, AllocError>
    requires made { IsMadeWith book.now corners.old }
    ensures made { IsMadeWith book.now corners.new }
{
    let (p, q, r) = (PlaneId { k: 1 }, PlaneId { k: q }, PlaneId { k: r });
    let count = book.count();
    if q.k as usize >= count || r.k as usize >= count || count < 2 {
        return Ok(None);
    }
    match meeting(book, p, q, r) {
        Some(corner) => Ok(Some(corners.add(book, corner, [p, q, r])?)),
        None => Ok(None),
    }
}

/// Whether the corners on the line of the walls of the greatest x and y have the first two places.
fn are_on_line(alloc: Global, book: &PlaneBook, corners: &CornerBook) -> Result<bool, AllocError>
    requires made { IsMadeWith book.now corners.now }
{
    if book.count() < 4 {
        return Ok(false);
    }
    let line = corners.on_line(alloc, book, PlaneId { k: 3 }, PlaneId { k: 1 })?;
    Ok(line.as_slice() == [0, 1].as_slice())
}

/// Whether there are two corners, and the second stands before the first on their line.
fn second_is_before_first(corners: &CornerBook) -> bool {
    corners.count() == 2 && before_on_line(corners.corner(1), corners.corner(0))
}

/// The walls 2 and 3 are those of the least and the greatest y, and 4 and 5 those of z.
#[test]
fn gives_each_corner_one_place(rt: HostRuntime) -> Result<(), AllocError> {
    let book = PlaneBook::new(rt.alloc())?;
    let mut corners = CornerBook::new(rt.alloc());
    assert!(rt; add_at(&book, &mut corners, 3, 5)? == Some(0));
    assert!(rt; add_at(&book, &mut corners, 3, 4)? == Some(1));
    assert!(rt; add_at(&book, &mut corners, 5, 3)? == Some(0));
    assert!(rt; are_on_line(rt.alloc(), &book, &corners)?);
    assert!(rt; second_is_before_first(&corners));
    Ok(())
}
