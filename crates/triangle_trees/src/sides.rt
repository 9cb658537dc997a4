ghost use Rattle.std.specs.Prelude.{◌≡◌, ◌^◌, ◌<◌, ◌+◌, pos, int_lt, length, IfOk};
ghost use Rattle.spec_space.specs.Points.{value};
ghost use Rattle.ray_law.specs.Columns.{is_in_front, point_at};
ghost use Rattle.plane_core.specs.Views.{plane_of};
ghost use Rattle.ray_law.specs.Ranges.{AreSteps};
ghost use Rattle.grid_solid.specs.Triangles.{triangle_of, IsNear};
ghost use Rattle.triangle_trees.specs.Forms.{IsGrown, IsSideOf, AreSidesBelow};

use grid_solid::GridTriangle;
use plane_cells::Step;
use plane_core::{Plane, PlaneBook};
use spec_space::Vector;
use std::alloc::AllocError;
use triangle_planes::TriangleForms;

/// The value of a plane at a place: above 0 in front, and below 0 behind.
fn value_at(plane: &Plane, place: Vector) -> i128
    requires place { AreSteps place }
    ensures value { result ≡ value (plane_of plane.now) (point_at place) }
{
    plane.a * place.x + plane.b * place.y + plane.c * place.z - plane.d
}

/// The side of a wall on which a place lies. The wall is added to the book. The error is want of memory.
fn wall_side(book: &mut PlaneBook, wall: Plane, place: Vector) -> Result<Step, AllocError>
    requires place { AreSteps place }
    requires room { length book.old < 2 ^ 31 }
    ensures side { IfOk result (IsSideOf book.new wall (is_in_front (point_at place) (plane_of wall))) }
    ensures grown { IsGrown 1 book.old book.new }
{
    let in_front = value_at(&wall, place) > 0;
    let plane = book.add(wall)?;
    Ok(Step { plane, in_front })
}

/// The side below a plane that is not upright. The plane is added to the book. The error is want of memory.
fn side_below(book: &mut PlaneBook, plane: Plane) -> Result<Step, AllocError>
    requires room { length book.old < 2 ^ 31 }
    ensures side { IfOk result (IsSideOf book.new plane (int_lt plane.c (pos 0))) }
    ensures grown { IsGrown 1 book.old book.new }
{
    let in_front = plane.c < 0;
    let plane = book.add(plane)?;
    Ok(Step { plane, in_front })
}

/// The four sides on which a point below a triangle lies that is not upright: for each edge, of the wall through it, the
/// side of the third corner; and of the triangle's plane the side below. The planes are added to the book. The error is
/// want of memory.
pub(crate) fn sides_below(
    book: &mut PlaneBook,
    t: &GridTriangle,
    forms: TriangleForms,
) -> Result<[Step; 4], AllocError>
    requires near { IsNear (triangle_of t.now) }
    requires room { length book.old + 4 < 2 ^ 31 }
    ensures sides { IfOk result (AreSidesBelow book.new (triangle_of t.now) forms) }
    ensures grown { IsGrown 4 book.old book.new }
{
    let ab = wall_side(book, forms.ab, t.c)?;
    let bc = wall_side(book, forms.bc, t.a)?;
    let ca = wall_side(book, forms.ca, t.b)?;
    let through = side_below(book, forms.through)?;
    Ok([ab, bc, ca, through])
}
