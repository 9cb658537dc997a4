ghost use Rattle.std.specs.Prelude.{◌≡◌, ◌*◌, ◌≤◌, ◌^◌, unsigned_abs};
ghost use Rattle.integer_laws.specs.Determinants.{det2, det3};
ghost use Rattle.plane_core.specs.Numbers.{IsRow};

use crate::numbers::Plane;

/// Three numbers of one row of a determinant.
#[derive(Clone, Copy)]
struct Row {
    x: i128,
    y: i128,
    z: i128,
}

/// The determinant of two rows of two numbers.
fn minor(a: i128, b: i128, c: i128, d: i128) -> i128
    requires a_small { unsigned_abs a ≤ 2 ^ 26 }
    requires b_small { unsigned_abs b ≤ 2 ^ 26 }
    requires c_small { unsigned_abs c ≤ 2 ^ 26 }
    requires d_small { unsigned_abs d ≤ 2 ^ 26 }
    ensures value { result ≡ det2 a b c d }
{
    a * d - b * c
}

/// The determinant of three rows, of which the first column may have the size of a distance.
fn det(p: Row, q: Row, r: Row) -> i128
    requires first { IsRow p.x p.y p.z }
    requires second { IsRow q.x q.y q.z }
    requires third { IsRow r.x r.y r.z }
    ensures value { result ≡ det3 p.x p.y p.z q.x q.y q.z r.x r.y r.z }
{
    let p_minor = minor(q.y, q.z, r.y, r.z);
    let q_minor = minor(r.y, r.z, p.y, p.z);
    let r_minor = minor(p.y, p.z, q.y, q.z);
    p.x * p_minor + q.x * q_minor + r.x * r_minor
}

/// The determinant of the three normals.
pub(crate) fn weight_part(p: &Plane, q: &Plane, r: &Plane) -> i128
    ensures value { result ≡ det3 p.now.a p.now.b p.now.c q.now.a q.now.b q.now.c r.now.a r.now.b r.now.c }
    ensures size { unsigned_abs result ≤ 6 * 2 ^ 78 }
{
    det(
        Row {
            x: p.a,
            y: p.b,
            z: p.c,
        },
        Row {
            x: q.a,
            y: q.b,
            z: q.c,
        },
        Row {
            x: r.a,
            y: r.b,
            z: r.c,
        },
    )
}

/// The x of the common point, times the determinant of the normals.
pub(crate) fn x_part(p: &Plane, q: &Plane, r: &Plane) -> i128
    ensures value { result ≡ det3 p.now.d p.now.b p.now.c q.now.d q.now.b q.now.c r.now.d r.now.b r.now.c }
    ensures size { unsigned_abs result ≤ 6 * 2 ^ 96 }
{
    det(
        Row {
            x: p.d,
            y: p.b,
            z: p.c,
        },
        Row {
            x: q.d,
            y: q.b,
            z: q.c,
        },
        Row {
            x: r.d,
            y: r.b,
            z: r.c,
        },
    )
}

/// The y of the common point, times the determinant of the normals.
pub(crate) fn y_part(p: &Plane, q: &Plane, r: &Plane) -> i128
    ensures value { result ≡ det3 p.now.d p.now.c p.now.a q.now.d q.now.c q.now.a r.now.d r.now.c r.now.a }
    ensures size { unsigned_abs result ≤ 6 * 2 ^ 96 }
{
    det(
        Row {
            x: p.d,
            y: p.c,
            z: p.a,
        },
        Row {
            x: q.d,
            y: q.c,
            z: q.a,
        },
        Row {
            x: r.d,
            y: r.c,
            z: r.a,
        },
    )
}

/// The z of the common point, times the determinant of the normals.
pub(crate) fn z_part(p: &Plane, q: &Plane, r: &Plane) -> i128
    ensures value { result ≡ det3 p.now.d p.now.a p.now.b q.now.d q.now.a q.now.b r.now.d r.now.a r.now.b }
    ensures size { unsigned_abs result ≤ 6 * 2 ^ 96 }
{
    det(
        Row {
            x: p.d,
            y: p.a,
            z: p.b,
        },
        Row {
            x: q.d,
            y: q.a,
            z: q.b,
        },
        Row {
            x: r.d,
            y: r.a,
            z: r.b,
        },
    )
}
