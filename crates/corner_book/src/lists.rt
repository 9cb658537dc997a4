ghost use Rattle.std.specs.Prelude.{◌≡◌, ◌≤◌, [], take, replicate, length, vec_len, IfOk, filter, OnOk, OnErr};
ghost use Rattle.indexmap.specs.IndexMap.{keys};
ghost use Rattle.corner_book.specs.Places.{is_on, passes_at, listed, unlisted};

use crate::places::Places;
use indexmap::IndexMap;
use plane_core::{Corner, Plane, PlaneBook, PlaneId, Sign, side};
use std::alloc::{AllocError, Global};

/// Whether the corner lies on the plane.
pub(crate) fn is_on(plane: &Plane, corner: &Corner) -> bool
    ensures { result ≡ is_on plane.now corner.now }
{
    match side(plane, corner) {
        Sign::On => true,
        Sign::Front => false,
        Sign::Back => false,
    }
}

/// So many lists of no places. The error is want of memory.
pub(crate) fn empty_lists(alloc: Global, count: usize) -> Result<Vec<Places>, AllocError>
    ensures { IfOk result (λ lists. lists.items ≡ replicate count []) }
{
    let mut lists = Vec::with_capacity(alloc, count)?;
    for _ in 0..count {
        lists.push(Places::new(alloc))?;
    }
    Ok(lists)
}

/// Puts the place behind the list of each plane of the book on which the corner lies. The error is want of memory, and then
/// the lists are as before.
pub(crate) fn list_corner(
    lists: &mut Vec<Places>,
    book: &PlaneBook,
    corner: &Corner,
    place: usize,
) -> Result<(), AllocError>
    requires { vec_len lists.old ≡ length book.now }
    ensures ok { OnOk result (lists.new.items ≡ listed book.now corner.now place lists.old.items) }
    ensures err { OnErr result (lists.new.items ≡ lists.old.items) }
{
    let count = book.count();
    for k in 0..count {
        if is_on(book.plane(PlaneId { k: k as u32 }), corner) && lists[k].push(place).is_err() {
            unlist_corner(lists, book, corner, k);
            return Err(AllocError);
        }
    }
    Ok(())
}

/// Drops the last place of the list of each of the first `count` planes on which the corner lies.
pub(crate) fn unlist_corner(
    lists: &mut Vec<Places>,
    book: &PlaneBook,
    corner: &Corner,
    count: usize,
)
    requires lists { count ≤ vec_len lists.old }
    requires planes { count ≤ length book.now }
    ensures { lists.new.items ≡ unlisted (take count book.now) corner.now lists.old.items }
{
    let _planes = book.count();
    for k in 0..count {
        if is_on(book.plane(PlaneId { k: k as u32 }), corner) {
            lists[k].drop_last();
        }
    }
}

/// Whether there is a corner at the place that lies on the plane.
fn is_on_at(corners: &IndexMap<Corner, [PlaneId; 3]>, place: usize, plane: &Plane) -> bool
    ensures { result ≡ passes_at (is_on plane.now) (keys corners.now) place }
{
    match corners.get_index(place) {
        Some((corner, _)) => is_on(plane, corner),
        None => false,
    }
}

/// Those of the places whose corners lie on the plane, in order. The error is want of memory.
pub(crate) fn places_on(
    alloc: Global,
    corners: &IndexMap<Corner, [PlaneId; 3]>,
    places: &[usize],
    plane: &Plane,
) -> Result<Vec<usize>, AllocError>
    ensures { IfOk result (λ on. on.items ≡ filter (passes_at (is_on plane.now) (keys corners.now)) places.now) }
{
    places
        .iter()
        .copied()
        .filter(|place| is_on_at(corners, *place, plane))
        .collect(alloc)
}
