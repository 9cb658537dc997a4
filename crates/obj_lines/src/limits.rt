ghost use Rattle.std.specs.Prelude.{◌≡◌, ◌≢◌, ◌<◌, ◌^◌, ◌↔◌, ℕ, pos, IsTrue, MatchOption, unsigned_abs};
ghost use Rattle.plane_core.specs.Views.{point_of};
ghost use Rattle.spec_place.specs.Vectors.{IsWithin};
ghost use Rattle.spec_headline.specs.Reduced.{IsPrintedPlane, IsExactCorner};
ghost use Rattle.spec_check.specs.Limits.{IsPageGrid, IsShort};
ghost use Rattle.plane_core.specs.Numbers.{AreCoprime};
ghost use Rattle.obj_lines.specs.Limits.{numbered_frame, HasCornerSizes, HasPlaneSizes};
ghost use Rattle.spec_place.specs.Transforms.{IsFrame};

use ix_num::gcd;
use ix_place::Frame;
use plane_core::Corner;
use spec_place::Transform;
use spec_space::Vector;

/// A grid in micrometres.
pub(crate) fn grid(number: i128) -> Option<u32>
    ensures { MatchOption result ((n : ℕ) → IsPageGrid n → pos n ≢ number) (λ n. IsPageGrid n × (pos n ≡ number)) }
{
    if number >= 1 && number <= 10_000 {
        Some(number as u32)
    } else {
        None
    }
}

/// A number of at most 18 digits.
pub(crate) fn short(number: i128) -> Option<u64>
    ensures { MatchOption result ((n : ℕ) → IsShort n → pos n ≢ number) (λ n. IsShort n × (pos n ≡ number)) }
{
    if number >= 0 && number < 1_000_000_000_000_000_000 {
        Some(number as u64)
    } else {
        None
    }
}

/// A count of triangles, of at most 21 digits.
pub(crate) fn triangle_count(number: i128) -> Option<u128>
    ensures { MatchOption result ((n : ℕ) → n < 10 ^ 21 → pos n ≢ number) (λ n. (n < 10 ^ 21) × (pos n ≡ number)) }
{
    if number >= 0 && number < 1_000_000_000_000_000_000_000 {
        Some(number as u128)
    } else {
        None
    }
}

/// The vector of three numbers.
pub(crate) fn vector(x: i128, y: i128, z: i128) -> Vector
    ensures { result ≡ record { x = x; y = y; z = z } }
{
    Vector { x, y, z }
}

/// Whether no part of a vector has a size above a bound.
pub(crate) fn is_within(bound: u128, vector: &Vector) -> bool
    ensures { IsTrue result ↔ IsWithin bound vector.now }
{
    vector.x.unsigned_abs() <= bound
        && vector.y.unsigned_abs() <= bound
        && vector.z.unsigned_abs() <= bound
}

/// Whether a transform has the bounds of a frame.
fn is_frame(transform: &Transform) -> bool
    ensures { IsTrue result ↔ IsFrame transform.now }
{
    let unit = 1_000_000_000;
    is_within(unit, &transform.x)
        && is_within(unit, &transform.y)
        && is_within(unit, &transform.z)
        && is_within(10_000_000_000_000_000, &transform.off)
}

/// The transform of twelve numbers.
pub(crate) fn transform_of(numbers: &[i128; 12]) -> Transform
    ensures { result ≡ numbered_frame numbers.now }
{
    Transform {
        x: vector(numbers[0], numbers[1], numbers[2]),
        y: vector(numbers[3], numbers[4], numbers[5]),
        z: vector(numbers[6], numbers[7], numbers[8]),
        off: vector(numbers[9], numbers[10], numbers[11]),
    }
}

/// The frame of a transform.
pub(crate) fn frame(transform: Transform) -> Option<Frame>
    ensures { MatchOption result (IsFrame transform → ⊥) (λ f. IsFrame transform × (f ≡ transform)) }
{
    if is_frame(&transform) {
        Some(Frame { transform })
    } else {
        None
    }
}

/// Whether no number but 1 divides all four.
fn are_coprime(a: i128, b: i128, c: i128, d: i128) -> bool
    requires first { unsigned_abs a < 2 ^ 127 }
    requires second { unsigned_abs b < 2 ^ 127 }
    requires third { unsigned_abs c < 2 ^ 127 }
    requires fourth { unsigned_abs d < 2 ^ 127 }
    ensures { IsTrue result ↔ AreCoprime a b c d }
{
    gcd(gcd(a, b), gcd(c, d)) == 1
}

/// Whether the numbers of a corner have the sizes of one.
fn has_corner_sizes(x: i128, y: i128, z: i128, w: i128) -> bool
    ensures { IsTrue result ↔ HasCornerSizes (record { x = x; y = y; z = z; w = w }) }
{
    if w <= 0 || w.unsigned_abs() > 6 << 78 {
        return false;
    }
    let place = vector(x, y, z);
    is_within(6 << 96, &place) && is_within((1 << 20) * w.unsigned_abs(), &place)
}

/// The exact corner of four numbers.
pub(crate) fn corner(x: i128, y: i128, z: i128, w: i128) -> Option<Corner>
    ensures { MatchOption result (IsExactCorner (record { x = x; y = y; z = z; w = w }) → ⊥)
        (λ c. IsExactCorner (point_of c) × (point_of c ≡ record { x = x; y = y; z = z; w = w })) }
{
    if !has_corner_sizes(x, y, z, w) {
        return None;
    }
    if !are_coprime(x, y, z, w) {
        return None;
    }
    Some(Corner { x, y, z, w })
}

/// Whether the numbers of a plane have the sizes of one.
fn has_plane_sizes(a: i128, b: i128, c: i128, d: i128) -> bool
    ensures { IsTrue result ↔ HasPlaneSizes (record { a = a; b = b; c = c; d = d }) }
{
    let normal = 1 << 26;
    a.unsigned_abs() <= normal
        && b.unsigned_abs() <= normal
        && c.unsigned_abs() <= normal
        && d.unsigned_abs() <= 1 << 44
}

/// Whether three numbers are 0.
fn is_zero(a: i128, b: i128, c: i128) -> bool
    ensures { IsTrue result ↔ (a ≡ pos 0) × (b ≡ pos 0) × (c ≡ pos 0) }
{
    a == 0 && b == 0 && c == 0
}

/// Whether four numbers are those of a printed plane.
pub(crate) fn is_plane(a: i128, b: i128, c: i128, d: i128) -> bool
    ensures { IsTrue result ↔ IsPrintedPlane (record { a = a; b = b; c = c; d = d }) }
{
    if !has_plane_sizes(a, b, c, d) {
        return false;
    }
    if is_zero(a, b, c) {
        return false;
    }
    are_coprime(a, b, c, d)
}
