ghost use Rattle.std.specs.Prelude.{◌≡◌, pos, neg_ℤ, ◌+ℤ◌, ◌-ℤ◌, ◌*ℤ◌, ◌^◌, ◌≤◌, ◌≤ℤ◌, ◌<ℤ◌, unsigned_abs};
ghost use Rattle.spec_space.specs.Points.{minus, cross, dot};
ghost use Rattle.spec_place.specs.Vectors.{vector_of, each, plus, times, reversed, divided, clamped, is_within, IsWithin};

use ix_num::round_div;
use spec_space::Vector;

/// 1, for what is counted in units of 10^-9.
pub const ONE: i128 = 1_000_000_000;

pub const ALONG_X: Vector = Vector { x: ONE, y: 0, z: 0 };

pub const ALONG_Y: Vector = Vector { x: 0, y: ONE, z: 0 };

pub const ALONG_Z: Vector = Vector { x: 0, y: 0, z: ONE };

/// The vector of three numbers.
pub fn vector_of(v: [i128; 3]) -> Vector
    ensures { result ≡ vector_of v }
{
    Vector {
        x: v[0],
        y: v[1],
        z: v[2],
    }
}

/// The vector of three coordinates.
pub fn wide_vector_of(v: [i64; 3]) -> Vector
    ensures { result ≡ vector_of v }
{
    Vector {
        x: v[0] as i128,
        y: v[1] as i128,
        z: v[2] as i128,
    }
}

pub fn numbers_of(v: &Vector) -> [i128; 3]
    ensures { vector_of result ≡ v.now }
{
    [v.x, v.y, v.z]
}

/// No part has a size above n.
pub fn is_within(n: u128, v: &Vector) -> bool
    ensures { result ≡ is_within n v.now }
{
    v.x.unsigned_abs() <= n && v.y.unsigned_abs() <= n && v.z.unsigned_abs() <= n
}

fn add(first: i128, second: i128) -> i128
    requires first { unsigned_abs first ≤ 2 ^ 125 }
    requires second { unsigned_abs second ≤ 2 ^ 125 }
    ensures { result ≡ first +ℤ second }
{
    first + second
}

pub fn plus(u: &Vector, v: &Vector) -> Vector
    requires first { IsWithin (2 ^ 125) u.now }
    requires second { IsWithin (2 ^ 125) v.now }
    ensures { result ≡ plus u.now v.now }
{
    Vector {
        x: add(u.x, v.x),
        y: add(u.y, v.y),
        z: add(u.z, v.z),
    }
}

fn subtract(first: i128, second: i128) -> i128
    requires first { unsigned_abs first ≤ 2 ^ 125 }
    requires second { unsigned_abs second ≤ 2 ^ 125 }
    ensures { result ≡ first -ℤ second }
{
    first - second
}

pub fn minus(u: &Vector, v: &Vector) -> Vector
    requires first { IsWithin (2 ^ 125) u.now }
    requires second { IsWithin (2 ^ 125) v.now }
    ensures { result ≡ minus u.now v.now }
{
    Vector {
        x: subtract(u.x, v.x),
        y: subtract(u.y, v.y),
        z: subtract(u.z, v.z),
    }
}

fn multiply(first: i128, second: i128) -> i128
    requires first { unsigned_abs first ≤ 2 ^ 62 }
    requires second { unsigned_abs second ≤ 2 ^ 62 }
    ensures { result ≡ first *ℤ second }
{
    first * second
}

/// A vector times a number.
pub fn times(k: i128, v: &Vector) -> Vector
    requires number { unsigned_abs k ≤ 2 ^ 62 }
    requires vector { IsWithin (2 ^ 62) v.now }
    ensures { result ≡ times k v.now }
{
    Vector {
        x: multiply(k, v.x),
        y: multiply(k, v.y),
        z: multiply(k, v.z),
    }
}

pub fn dot(u: &Vector, v: &Vector) -> i128
    requires first { IsWithin (2 ^ 62) u.now }
    requires second { IsWithin (2 ^ 62) v.now }
    ensures { result ≡ dot u.now v.now }
{
    u.x * v.x + u.y * v.y + u.z * v.z
}

/// The difference of two products.
fn minor(a: i128, b: i128, c: i128, d: i128) -> i128
    requires a { unsigned_abs a ≤ 2 ^ 62 }
    requires b { unsigned_abs b ≤ 2 ^ 62 }
    requires c { unsigned_abs c ≤ 2 ^ 62 }
    requires d { unsigned_abs d ≤ 2 ^ 62 }
    ensures { result ≡ a *ℤ b -ℤ c *ℤ d }
{
    a * b - c * d
}

pub fn cross(u: &Vector, v: &Vector) -> Vector
    requires first { IsWithin (2 ^ 62) u.now }
    requires second { IsWithin (2 ^ 62) v.now }
    ensures { result ≡ cross u.now v.now }
{
    Vector {
        x: minor(u.y, v.z, u.z, v.y),
        y: minor(u.z, v.x, u.x, v.z),
        z: minor(u.x, v.y, u.y, v.x),
    }
}

fn negate(n: i128) -> i128
    requires { unsigned_abs n ≤ 2 ^ 125 }
    ensures { result ≡ neg_ℤ n }
{
    -n
}

pub fn reversed(v: &Vector) -> Vector
    requires { IsWithin (2 ^ 125) v.now }
    ensures { result ≡ reversed v.now }
{
    Vector {
        x: negate(v.x),
        y: negate(v.y),
        z: negate(v.z),
    }
}

/// A vector divided by a number, each part rounded.
pub fn divided(v: &Vector, d: i128) -> Vector
    requires vector { IsWithin (2 ^ 125) v.now }
    requires positive { pos 0 <ℤ d }
    requires small { d ≤ℤ pos (2 ^ 62) }
    ensures { result ≡ divided v.now d }
{
    Vector {
        x: round_div(v.x, d),
        y: round_div(v.y, d),
        z: round_div(v.z, d),
    }
}

fn clamped_part(n: i128) -> i128
    ensures value { result ≡ clamped n }
    ensures within { unsigned_abs result ≤ 10 ^ 9 }
{
    n.clamp(-ONE, ONE)
}

/// Each part of a vector clamped.
pub fn clamped(v: &Vector) -> Vector
    ensures value { result ≡ each clamped v.now }
    ensures within { IsWithin (10 ^ 9) result }
{
    Vector {
        x: clamped_part(v.x),
        y: clamped_part(v.y),
        z: clamped_part(v.z),
    }
}
