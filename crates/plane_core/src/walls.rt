ghost use Rattle.std.specs.Prelude.{◌≡◌, ◌≤◌, ◌^◌, unsigned_abs};
ghost use Rattle.plane_core.specs.Views.{plane_of};
ghost use Rattle.plane_core.specs.Books.{x_plane, y_plane, z_plane};

use crate::numbers::Plane;

/// The plane `x = d`.
pub(crate) fn x_wall(d: i128) -> Plane
    requires small { unsigned_abs d ≤ 2 ^ 44 }
    ensures value { plane_of result ≡ x_plane d }
{
    Plane {
        a: 1,
        b: 0,
        c: 0,
        d,
    }
}

/// The plane `y = d`.
pub(crate) fn y_wall(d: i128) -> Plane
    requires small { unsigned_abs d ≤ 2 ^ 44 }
    ensures value { plane_of result ≡ y_plane d }
{
    Plane {
        a: 0,
        b: 1,
        c: 0,
        d,
    }
}

/// The plane `z = d`.
pub(crate) fn z_wall(d: i128) -> Plane
    requires small { unsigned_abs d ≤ 2 ^ 44 }
    ensures value { plane_of result ≡ z_plane d }
{
    Plane {
        a: 0,
        b: 0,
        c: 1,
        d,
    }
}
