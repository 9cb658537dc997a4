ghost use Rattle.std.specs.Prelude.{◌≡◌, ◌≤◌, ◌^◌};
ghost use Rattle.spec_place.specs.Vectors.{IsWithin};
ghost use Rattle.spec_place.specs.Transforms.{first_column, second_column, third_column, of_columns, turned, row_times, image, composed, with_clamped, turned_back, inverse, has_entries_within, has_offset, IsMap};
ghost use Rattle.ix_place.specs.Bounds.{HasSmallEntries};

use crate::vector::{ONE, clamped, divided, dot, is_within, plus, reversed, times};
use spec_place::{Axes, Transform};
use spec_space::Vector;

/// The greatest size of an offset, in nanometres.
const MOST_OFFSET: u128 = 10_000_000_000_000_000;

pub fn first_column(t: &Transform) -> Vector
    ensures { result ≡ first_column t.now }
{
    Vector {
        x: t.x.x,
        y: t.y.x,
        z: t.z.x,
    }
}

pub fn second_column(t: &Transform) -> Vector
    ensures { result ≡ second_column t.now }
{
    Vector {
        x: t.x.y,
        y: t.y.y,
        z: t.z.y,
    }
}

pub fn third_column(t: &Transform) -> Vector
    ensures { result ≡ third_column t.now }
{
    Vector {
        x: t.x.z,
        y: t.y.z,
        z: t.z.z,
    }
}

/// The transform whose columns are these axes.
pub fn of_columns(axes: &Axes, off: Vector) -> Transform
    ensures { result ≡ of_columns axes.now off }
{
    Transform {
        x: Vector {
            x: axes.x.x,
            y: axes.y.x,
            z: axes.z.x,
        },
        y: Vector {
            x: axes.x.y,
            y: axes.y.y,
            z: axes.z.y,
        },
        z: Vector {
            x: axes.x.z,
            y: axes.y.z,
            z: axes.z.z,
        },
        off,
    }
}

/// The matrix times a vector, exact, in units of 10^-9.
fn turned(t: &Transform, v: &Vector) -> Vector
    requires map { IsMap t.now }
    requires vector { IsWithin (2 ^ 62) v.now }
    ensures value { result ≡ turned t.now v.now }
    ensures within { IsWithin (2 ^ 124) result }
{
    Vector {
        x: dot(&t.x, v),
        y: dot(&t.y, v),
        z: dot(&t.z, v),
    }
}

/// A row times the matrix, exact.
fn row_times(row: &Vector, t: &Transform) -> Vector
    requires row { IsWithin (10 ^ 12) row.now }
    requires map { IsMap t.now }
    ensures value { result ≡ row_times row.now t.now }
    ensures within { IsWithin (2 ^ 124) result }
{
    Vector {
        x: dot(row, &first_column(t)),
        y: dot(row, &second_column(t)),
        z: dot(row, &third_column(t)),
    }
}

/// The image of a point in nanometres, exact, in units of 10^-9 nanometres.
pub fn image(t: &Transform, p: &Vector) -> Vector
    requires map { IsMap t.now }
    requires point { IsWithin (2 ^ 62) p.now }
    ensures value { result ≡ image t.now p.now }
    ensures within { IsWithin (2 ^ 125) result }
{
    plus(&turned(t, p), &times(ONE, &t.off))
}

/// The offset of the transform that stands as b within a.
fn composed_offset(a: &Transform, b: &Transform) -> Vector
    requires first { IsMap a.now }
    requires second { IsMap b.now }
    ensures { result ≡ (composed a.now b.now).off }
{
    plus(&a.off, &divided(&turned(a, &b.off), ONE))
}

/// The transform that stands as b within a.
pub fn composed(a: &Transform, b: &Transform) -> Transform
    requires first { IsMap a.now }
    requires second { IsMap b.now }
    ensures { result ≡ composed a.now b.now }
{
    Transform {
        x: divided(&row_times(&a.x, b), ONE),
        y: divided(&row_times(&a.y, b), ONE),
        z: divided(&row_times(&a.z, b), ONE),
        off: composed_offset(a, b),
    }
}

/// Each entry of the matrix clamped.
pub fn with_clamped(t: &Transform) -> Transform
    ensures value { result ≡ with_clamped t.now }
    ensures small { HasSmallEntries result }
{
    Transform {
        x: clamped(&t.x),
        y: clamped(&t.y),
        z: clamped(&t.z),
        off: t.off,
    }
}

/// The columns times a vector, exact.
fn turned_back(t: &Transform, v: &Vector) -> Vector
    requires map { IsMap t.now }
    requires vector { IsWithin (10 ^ 16) v.now }
    ensures value { result ≡ turned_back t.now v.now }
    ensures within { IsWithin (2 ^ 124) result }
{
    Vector {
        x: dot(&first_column(t), v),
        y: dot(&second_column(t), v),
        z: dot(&third_column(t), v),
    }
}

/// The transposed matrix, and the offset turned back.
pub fn inverse(t: &Transform) -> Transform
    requires { IsMap t.now }
    ensures { result ≡ inverse t.now }
{
    Transform {
        x: first_column(t),
        y: second_column(t),
        z: third_column(t),
        off: divided(&reversed(&turned_back(t, &t.off)), ONE),
    }
}

/// No entry of the matrix has a size above n.
pub fn has_entries_within(n: u128, t: &Transform) -> bool
    ensures { result ≡ has_entries_within n t.now }
{
    is_within(n, &t.x) && is_within(n, &t.y) && is_within(n, &t.z)
}

/// The offset is within its bound.
pub fn has_offset(t: &Transform) -> bool
    ensures { result ≡ has_offset t.now }
{
    is_within(MOST_OFFSET, &t.off)
}
