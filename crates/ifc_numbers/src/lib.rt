//! Numbers, points, directions and units of IFC4: what every reader of its geometry stands on.
#![tactic(auto)]

mod faults;
mod measures;
mod numbers;
mod points;
mod units;

pub use entity_reader::wanted_instance;
pub use faults::{ItemFault, refusal_at};
pub use measures::GeomIn;
pub use numbers::{boolean, length, number_if_set, positive, reference_if_set, zero};
pub use points::{
    direction, if_direction, if_plane_direction, named_point, plane_direction, plane_point, point,
};
pub use units::length_unit;
