ghost use Rattle.std.specs.Prelude.{◌≡◌, ◌≤◌, ◌^◌, ◌-ℤ◌, ◌*ℤ◌, unsigned_abs};
ghost use Rattle.spec_space.specs.Points.{minus, cross, dot};
ghost use Rattle.exact_mesh.specs.Meshes.{vector_of};
ghost use Rattle.exact_mesh.specs.Ranges.{IsWithin};

use spec_space::Vector;

fn difference(first: i128, second: i128) -> i128
    requires { unsigned_abs (first -ℤ second) ≤ 2 ^ 37 }
    ensures { result ≡ first -ℤ second }
{
    first - second
}

/// The way from the second place to the first.
pub(crate) fn minus(first: &[i128; 3], second: &[i128; 3]) -> Vector
    requires { IsWithin (2 ^ 37) (minus (vector_of first.now) (vector_of second.now)) }
    ensures { result ≡ minus (vector_of first.now) (vector_of second.now) }
{
    Vector {
        x: difference(first[0], second[0]),
        y: difference(first[1], second[1]),
        z: difference(first[2], second[2]),
    }
}

/// The difference of two products of ways between corners.
fn minor(a: i128, b: i128, c: i128, d: i128) -> i128
    requires a { unsigned_abs a ≤ 2 ^ 37 }
    requires b { unsigned_abs b ≤ 2 ^ 37 }
    requires c { unsigned_abs c ≤ 2 ^ 37 }
    requires d { unsigned_abs d ≤ 2 ^ 37 }
    ensures { result ≡ a *ℤ b -ℤ c *ℤ d }
{
    a * b - c * d
}

fn cross(first: &Vector, second: &Vector) -> Vector
    requires first { IsWithin (2 ^ 37) first.now }
    requires second { IsWithin (2 ^ 37) second.now }
    ensures { result ≡ cross first.now second.now }
{
    Vector {
        x: minor(first.y, second.z, first.z, second.y),
        y: minor(first.z, second.x, first.x, second.z),
        z: minor(first.x, second.y, first.y, second.x),
    }
}

fn dot(first: &Vector, second: &Vector) -> i128
    requires first { IsWithin (2 ^ 37) first.now }
    requires second { IsWithin (2 ^ 75) second.now }
    ensures { result ≡ dot first.now second.now }
{
    first.x * second.x + first.y * second.y + first.z * second.z
}

/// Six times the volume of the tetrahedron over three ways from one corner, with its sign.
pub(crate) fn triple_product(first: &Vector, second: &Vector, third: &Vector) -> i128
    requires first { IsWithin (2 ^ 37) first.now }
    requires second { IsWithin (2 ^ 37) second.now }
    requires third { IsWithin (2 ^ 37) third.now }
    ensures { result ≡ dot first.now (cross second.now third.now) }
{
    dot(first, &cross(second, third))
}
