ghost use Rattle.std.specs.Prelude.{◌≡◌, pos, IfSome, IfNone};
ghost use Rattle.spec_solid.specs.Triangles.{turn};
ghost use Rattle.plane_core.specs.Planes.{IsReductionOf};
ghost use Rattle.grid_solid.specs.Triangles.{triangle_of, IsNear, HasForm};
ghost use Rattle.triangle_planes.specs.Sizes.{AreAreas};
ghost use Rattle.triangle_planes.specs.Planes.{IsPlane, AreFormsOf, AreReduced, LacksForm};

use crate::forms::{Forms, TriangleForms};
use crate::normals::{normal, plane_through, upright_plane};
use grid_solid::GridTriangle;
use spec_space::{Plane, Vector};

/// The reduced form of a plane; `None` exactly where it passes the sizes of planes.
fn form(plane: Plane) -> Option<plane_core::Plane>
    requires plane { IsPlane plane }
    ensures taken { IfSome result (λ p. IsReductionOf p plane.a plane.b plane.c plane.d) }
    ensures too_large { IfNone result (HasForm plane → ⊥) }
{
    match plane_core::Plane::reduced(plane.a, plane.b, plane.c, plane.d) {
        Some(form) => Some(form),
        None => None,
    }
}

/// The reduced planes of a triangle that is not upright; `None` where some reduced form passes the sizes of planes.
fn reduced(t: &GridTriangle, normal: Vector) -> Option<TriangleForms>
    requires near { IsNear (triangle_of t.now) }
    requires normal { normal ≡ turn (triangle_of t.now) }
    requires small { AreAreas normal }
    requires steep { normal.z ≡ pos 0 → ⊥ }
    ensures reduced { IfSome result (AreReduced (triangle_of t.now)) }
    ensures too_large { IfNone result (LacksForm (triangle_of t.now)) }
{
    let ab = form(upright_plane(t.a, t.b))?;
    let bc = form(upright_plane(t.b, t.c))?;
    let ca = form(upright_plane(t.c, t.a))?;
    let through = form(plane_through(t, normal))?;
    Some(TriangleForms {
        ab,
        bc,
        ca,
        through,
    })
}

/// The planes of a triangle, reduced (rules of this project): an upright one has none.
pub fn forms_of(t: &GridTriangle) -> Forms
    requires near { IsNear (triangle_of t.now) }
    ensures forms { AreFormsOf (triangle_of t.now) result }
{
    let normal = normal(t);
    if normal.z == 0 {
        return Forms::Upright;
    }
    match reduced(t, normal) {
        Some(forms) => Forms::Reduced(forms),
        None => Forms::TooLarge,
    }
}
