ghost use Rattle.std.specs.Prelude.{◌≡◌, ◌≤◌, ◌^◌};
ghost use Rattle.spec_table.specs.Sections.{IsSimple};
ghost use Rattle.spec_place.specs.Vectors.{vector_of, IsWithin};
ghost use Rattle.spec_place.specs.Frames.{frame_of_axes};
ghost use Rattle.spec_geometry.specs.Files.{placed};
ghost use Rattle.spec_geometry.specs.Axes.{axes_3d, axes_2d, axes, named_axes, if_axes};
ghost use Rattle.ifc_numbers.specs.Measures.{file_of};

use entity_reader::{has_kind, instance_of_kinds, named_instance};
use ifc_kinds::Kind;
use ifc_numbers::{
    GeomIn, if_direction, if_plane_direction, named_point, reference_if_set, refusal_at,
};
use ix_place::{Dir, Frame};
use spec_refusal::Refusal;
use spec_space::Vector;
use step_table::Table;

/// The coordinates of a point, of sizes of at most 10^16.
pub fn coordinates(point: &Vector) -> [i64; 3]
    requires { IsWithin (10 ^ 16) point.now }
    ensures { vector_of result ≡ point.now }
{
    [point.x as i64, point.y as i64, point.z as i64]
}

/// The frame of axes by their parts.
fn frame(at: u64, place: &Vector, axis: Option<Dir>, ref_dir: Option<Dir>) -> Result<Frame, Refusal>
    requires { IsWithin (10 ^ 16) place.now }
    ensures { result ≡ placed at (frame_of_axes place.now axis ref_dir) }
{
    Frame::of_axes(coordinates(place), axis, ref_dir).map_err(|fault| refusal_at(at, fault))
}

/// Axes in space (IfcAxis2Placement3D).
fn axes_in_space(table: &Table<'_>, g: &GeomIn, at: u64) -> Result<Frame, Refusal>
    requires { IsSimple table.now at }
    ensures { result ≡ axes_3d (file_of table.now g.now) at }
{
    let place = named_point(table, g, at, 1)?;
    let axis = if_direction(table, at, 2)?;
    let ref_dir = if_direction(table, at, 3)?;
    frame(at, &place, axis, ref_dir)
}

/// Axes in the plane (IfcAxis2Placement2D), as axes in space.
fn axes_on_plane(table: &Table<'_>, g: &GeomIn, at: u64) -> Result<Frame, Refusal>
    requires { IsSimple table.now at }
    ensures { result ≡ axes_2d (file_of table.now g.now) at }
{
    let place = named_point(table, g, at, 1)?;
    let ref_dir = if_plane_direction(table, at, 2)?;
    frame(at, &place, None, ref_dir)
}

/// The frame of axes: of an IfcAxis2Placement3D, and of an IfcAxis2Placement2D where axes in space are wanted.
pub fn axes(table: &Table<'_>, g: &GeomIn, at: u64) -> Result<Frame, Refusal>
    requires { IsSimple table.now at }
    ensures { result ≡ axes (file_of table.now g.now) at }
{
    if has_kind(table, at, Kind::Axis2Placement3d) {
        axes_in_space(table, g, at)
    } else {
        axes_on_plane(table, g, at)
    }
}

/// The frame of the axes that a wanted attribute names.
pub fn named_axes(table: &Table<'_>, g: &GeomIn, at: u64, position: usize) -> Result<Frame, Refusal>
    requires simple { IsSimple table.now at }
    requires counted { 1 ≤ position }
    ensures { result ≡ named_axes (file_of table.now g.now) at position }
{
    let kinds = [Kind::Axis2Placement3d, Kind::Axis2Placement2d];
    let named = named_instance(table, &kinds, at, position)?;
    axes(table, g, named)
}

/// The frame of the axes that an attribute names, if it is set.
pub fn if_axes(
    table: &Table<'_>,
    g: &GeomIn,
    at: u64,
    position: usize,
) -> Result<Option<Frame>, Refusal>
    requires simple { IsSimple table.now at }
    requires counted { 1 ≤ position }
    ensures { result ≡ if_axes (file_of table.now g.now) at position }
{
    let kinds = [Kind::Axis2Placement3d, Kind::Axis2Placement2d];
    match reference_if_set(table, at, position)? {
        Some(number) => {
            let named = instance_of_kinds(table, &kinds, number)?;
            Ok(Some(axes(table, g, named)?))
        }
        None => Ok(None),
    }
}
