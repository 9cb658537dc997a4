//! Axes, maps and placements of IFC4: where solids stand.
#![tactic(auto)]

mod frames;
mod maps;
mod placements;
mod plane;

pub use frames::{axes, if_axes, named_axes};
pub use ifc_numbers::{
    GeomIn, ItemFault, boolean, direction, if_direction, if_plane_direction, length, length_unit,
    named_point, number_if_set, plane_direction, plane_point, point, positive, reference_if_set,
    refusal_at, wanted_instance, zero,
};
pub use maps::{map_within, map_within_if, operator, within};
pub use placements::{opening_frame, read_chain, world_frame};
pub use plane::{PlaneAxes, if_plane_axes, plane_axes};
