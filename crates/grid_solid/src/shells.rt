ghost use Rattle.std.specs.Prelude.{All, map};
ghost use Rattle.ray_law.specs.Shells.{IsClosed};
ghost use Rattle.grid_solid.specs.Triangles.{triangle_of, IsNear, HasForms};

use crate::triangles::GridTriangle;
use sqlite_items::Items;

/// The triangles of a primitive on the grid. Each coordinate of a corner has a size of at most 2^20 grid steps, each two
/// places are joined by an even number of the triangles' edges, and each plane of a triangle that is not upright has a
/// reduced form within the sizes of planes (rules of this project).
#[derive(Drop)]
pub struct GridShell {
    pub triangles: Items<GridTriangle>,
    pub ghost near: { All IsNear (map triangle_of triangles) },
    pub ghost closed: { IsClosed (map triangle_of triangles) },
    pub ghost forms: { All HasForms (map triangle_of triangles) },
}
