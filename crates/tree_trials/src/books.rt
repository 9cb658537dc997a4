use plane_core::{Corner, Plane, PlaneBook, meet};
use std::alloc::{AllocError, Global};

/// The numbers a, b, c and d of a plane `ax + by + cz = d`, reduced or not.
pub(crate) type Numbers = [i64; 4];

/// The reduced plane of these numbers, if there is one.
pub(crate) fn plane(numbers: Numbers) -> Option<Plane> {
    let [a, b, c, d] = numbers;
    if a == 0 && b == 0 && c == 0 {
        return None;
    }
    Plane::reduced(i128::from(a), i128::from(b), i128::from(c), i128::from(d))
}

/// The corner in which the planes of these numbers meet, if they meet in one.
pub(crate) fn corner(planes: [Numbers; 3]) -> Option<Corner> {
    let [p, q, r] = planes;
    meet(&plane(p)?, &plane(q)?, &plane(r)?)
}

/// The point with these coordinates, each divided by the weight.
pub(crate) fn point(place: [i64; 3], weight: i64) -> Option<Corner> {
    let [x, y, z] = place;
    corner([[weight, 0, 0, x], [0, weight, 0, y], [0, 0, weight, z]])
}

/// A book with the planes of these numbers behind the walls of the cube, from number 6 on.
pub(crate) fn book_of(alloc: Global, planes: &[Numbers]) -> Result<PlaneBook, AllocError> {
    let mut book = PlaneBook::new(alloc)?;
    for numbers in planes {
        if let Some(plane) = plane(*numbers)
            && book.count() < 10_000
        {
            book.add(plane)?;
        }
    }
    Ok(book)
}
