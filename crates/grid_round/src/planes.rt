ghost use Rattle.std.specs.Prelude.{◌≡◌, map, All};
ghost use Rattle.std.specs.List.{list_all};
ghost use Rattle.spec_grid.specs.Rounded.{is_triangle_fitting};
ghost use Rattle.grid_solid.specs.Triangles.{triangle_of, IsNear};

use grid_solid::GridTriangle;
use triangle_planes::{Forms, forms_of};

/// Whether the planes of a triangle are within the sizes of planes; an upright one has none.
fn is_triangle_fitting(triangle: &GridTriangle) -> bool
    requires { IsNear (triangle_of triangle.now) }
    ensures { result ≡ is_triangle_fitting (triangle_of triangle.now) }
{
    match forms_of(triangle) {
        Forms::TooLarge => false,
        Forms::Upright => true,
        Forms::Reduced(_) => true,
    }
}

/// Whether the planes of all triangles are within the sizes of planes.
pub fn are_fitting(triangles: &[GridTriangle]) -> bool
    requires { All IsNear (map triangle_of triangles.now) }
    ensures { result ≡ list_all is_triangle_fitting (map triangle_of triangles.now) }
{
    for triangle in triangles {
        if !is_triangle_fitting(triangle) {
            return false;
        }
    }
    true
}
