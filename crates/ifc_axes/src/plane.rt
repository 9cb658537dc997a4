ghost use Rattle.std.specs.Prelude.{◌≡◌, ◌≤◌};
ghost use Rattle.spec_table.specs.Sections.{IsSimple};
ghost use Rattle.spec_geometry.specs.Axes.{plane_axes, if_plane_axes};
ghost use Rattle.ifc_numbers.specs.Measures.{file_of};

use entity_reader::{instance_of_kinds, named_instance};
use ifc_kinds::Kind;
use ifc_numbers::{GeomIn, if_plane_direction, plane_point, reference_if_set};
use ix_place::Dir;
use spec_refusal::Refusal;
use spec_space::Vector;
use std::marker::Model;
use step_table::Table;

/// Axes in the plane (IfcAxis2Placement2D): a place in nanometres, of sizes of at most 10^16, and the direction of the first
/// axis, if it is set.
#[derive(Clone, Copy, Debug, PartialEq, Eq)]
pub struct PlaneAxes {
    /// The place.
    pub at: Vector,
    /// The direction of the first axis.
    pub ref_dir: Option<Dir>,
}

impl Model for PlaneAxes {
    ghost use Rattle.std.specs.Prelude.{◌^◌};
    ghost use Rattle.spec_place.specs.Vectors.{IsWithin};
    ghost use Rattle.spec_geometry.specs.Axes.{PlaneAxes};

    ghost Value = { PlaneAxes };

    ghost view = { λ a. record { at = a.at; ref = a.ref_dir } };

    ghost invariant = { λ a. IsWithin (10 ^ 16) a.at };

    ghost inverse = { λ a. record { at = a.at; ref_dir = a.ref } };
}

/// Axes in the plane (IfcAxis2Placement2D).
pub fn plane_axes(table: &Table<'_>, g: &GeomIn, at: u64) -> Result<PlaneAxes, Refusal>
    requires { IsSimple table.now at }
    ensures { result ≡ plane_axes (file_of table.now g.now) at }
{
    let location = named_instance(table, &[Kind::CartesianPoint], at, 1)?;
    let place = plane_point(table, g, location)?;
    let ref_dir = if_plane_direction(table, at, 2)?;
    Ok(PlaneAxes { at: place, ref_dir })
}

/// The axes in the plane that an attribute names, if it is set.
pub fn if_plane_axes(
    table: &Table<'_>,
    g: &GeomIn,
    at: u64,
    position: usize,
) -> Result<Option<PlaneAxes>, Refusal>
    requires simple { IsSimple table.now at }
    requires counted { 1 ≤ position }
    ensures { result ≡ if_plane_axes (file_of table.now g.now) at position }
{
    match reference_if_set(table, at, position)? {
        Some(number) => {
            let named = instance_of_kinds(table, &[Kind::Axis2Placement2d], number)?;
            Ok(Some(plane_axes(table, g, named)?))
        }
        None => Ok(None),
    }
}
