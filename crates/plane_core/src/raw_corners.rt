ghost use Rattle.std.specs.Prelude.{◌≡◌, ◌≢◌, ◌↔◌, IsNone, IfSome, ◌*ℤ◌, ◌≤◌, pos, ◌<ℤ◌, unsigned_abs};
ghost use Rattle.spec_space.specs.Points.{value};
ghost use Rattle.plane_core.specs.Views.{plane_of, point_of, raw_point_of};
ghost use Rattle.plane_core.specs.Planes.{sign_of, normals_det, IsRawCommonPoint, IsMultipleOf};

use crate::determinants::{weight_part, x_part, y_part, z_part};
use crate::numbers::{Corner, Plane, RawCorner};
use crate::points::{Sign, side_number, sign_of_number};
use crate::reduce::{common_divisor, quotient};

/// 1 for a positive number, and -1 for a negative one.
fn sign_number(n: i128) -> i128
    requires { n ≢ pos 0 }
    ensures unit { unsigned_abs result ≤ 1 }
    ensures positive { pos 0 <ℤ (result *ℤ n) }
{
    if n < 0 { -1 } else { 1 }
}

impl RawCorner {
    /// The one common point of three planes, or `None` exactly where their normals are dependent: then the planes have no
    /// common point, or a line of them, or more.
    pub fn of_planes(p: &Plane, q: &Plane, r: &Plane) -> Option<RawCorner>
        ensures dependent { IsNone result ↔ (normals_det p.now q.now r.now ≡ pos 0) }
        ensures common { IfSome result (IsRawCommonPoint p.now q.now r.now) }
    {
        let w = weight_part(p, q, r);
        if w == 0 {
            return None;
        }
        let x = x_part(p, q, r);
        let y = y_part(p, q, r);
        let z = z_part(p, q, r);
        let sign = sign_number(w);
        Some(RawCorner {
            x: sign * x,
            y: sign * y,
            z: sign * z,
            w: sign * w,
        })
    }

    /// Where the corner lies at the plane: the exact sign of `ax + by + cz - dw`, computed within 128 bits.
    pub fn side_at(&self, plane: &Plane) -> Sign
        ensures value { result ≡ sign_of (value (plane_of plane.now) (raw_point_of self.now)) }
    {
        let number = side_number(plane, self.x, self.y, self.z, self.w);
        sign_of_number(number)
    }

    /// The same point, reduced.
    pub fn reduced(&self) -> Corner
        ensures same { IsMultipleOf (raw_point_of self.now) (point_of result) }
    {
        let divisor = common_divisor(self.x, self.y, self.z, self.w);
        Corner {
            x: quotient(self.x, divisor),
            y: quotient(self.y, divisor),
            z: quotient(self.z, divisor),
            w: quotient(self.w, divisor),
        }
    }
}
