ghost use Rattle.std.specs.Prelude.{◌≡◌, None, ◌*◌, ◌^◌, ◌≤◌, ◌≤ℤ◌, ◌<ℤ◌, pos, slice_index_or, unwrap_or, unsigned_abs};
ghost use Rattle.spec_place.specs.Vectors.{vector_of, along_y, IsWithin};
ghost use Rattle.spec_place.specs.Maps.{map_then, is_scale, are_scales, turned_to, stretched, scaled_axes, operator_map, corner};
ghost use Rattle.ix_place.specs.Bounds.{AreSmall, AreStretched};

use crate::axes::axes_in_space;
use crate::matrix::{composed, has_entries_within, has_offset, image, of_columns};
use crate::types::{Dir, Frame, Map};
use crate::vector::{
    ALONG_Y, divided, dot, numbers_of, reversed, times, vector_of, wide_vector_of,
};
use spec_place::{Axes, PlaceFault};
use spec_space::Vector;

/// The greatest size of an entry of a map's matrix.
const MOST_ENTRY: u128 = 1_000_000_000_000;

fn is_scale(s: i128) -> bool
    ensures { result ≡ is_scale s }
{
    1_000_000_000 <= s && s <= 1_000_000_000_000_000
}

fn are_scales(s: &Vector) -> bool
    ensures { result ≡ are_scales s.now }
{
    is_scale(s.x) && is_scale(s.y) && is_scale(s.z)
}

/// The direction, or its opposite where that is on the side of another vector.
pub fn turned_to(side: &Vector, v: &Vector) -> Vector
    requires side { IsWithin (10 ^ 12) side.now }
    requires direction { IsWithin (10 ^ 9) v.now }
    ensures value { result ≡ turned_to side.now v.now }
    ensures within { IsWithin (10 ^ 9) result }
{
    if dot(side, v) < 0 { reversed(v) } else { *v }
}

/// The axis times the scale.
fn stretched(axis: &Vector, scale: i128) -> Vector
    requires axis { IsWithin (10 ^ 9) axis.now }
    requires scale { unsigned_abs scale ≤ 10 ^ 15 }
    ensures value { result ≡ stretched axis.now scale }
    ensures within { IsWithin (10 ^ 12) result }
{
    divided(&times(scale, axis), 1_000_000_000_000)
}

/// The axes times their scales, the second one turned to the side of another vector.
fn scaled_axes(axes: &Axes, side: &Vector, scales: &Vector) -> Axes
    requires axes { AreSmall axes.now }
    requires side { IsWithin (10 ^ 9) side.now }
    requires scales { IsWithin (10 ^ 15) scales.now }
    ensures value { result ≡ scaled_axes axes.now side.now scales.now }
    ensures small { AreStretched result }
{
    Axes {
        x: stretched(&axes.x, scales.x),
        y: stretched(&turned_to(side, &axes.y), scales.y),
        z: stretched(&axes.z, scales.z),
    }
}

/// The vector of a direction, and that of y where it is unset.
fn or_along_y(axis: Option<Dir>) -> Vector
    ensures value { result ≡ unwrap_or axis along_y }
    ensures within { IsWithin (10 ^ 9) result }
{
    match axis {
        Some(d) => d.v,
        None => ALONG_Y,
    }
}

/// A number of units to each of so many micrometres of a grid step.
pub fn in_steps(unit: u64, step: u32) -> i128
    requires some { 1 ≤ unit }
    requires most { unit ≤ 10 ^ 12 }
    requires low { 1 ≤ step }
    requires high { step ≤ 10000 }
    ensures value { result ≡ pos (unit * step) }
    ensures positive { pos 0 <ℤ result }
    ensures small { result ≤ℤ pos (2 ^ 62) }
{
    (unit * step as u64) as i128
}

impl Map {
    /// The map with the matrix and the offset of a frame.
    pub fn of_frame(f: &Frame) -> Map
        ensures { result ≡ f.now }
    {
        Map {
            transform: f.transform,
        }
    }

    /// The map that stands as b within this one.
    ///
    /// # Errors
    ///
    /// `ScaleOutOfRange` exactly where an entry of its matrix has a size above 1000, and else
    /// `OffsetTooLarge` exactly where its offset has a part of a size above 10^16 nanometres.
    #[tactic(auto, using(crate::proofs::Bounded::tested_map))]
    pub fn then(&self, b: &Map) -> Result<Map, PlaceFault>
        ensures { result ≡ map_then self.now b.now }
    {
        let transform = composed(&self.transform, &b.transform);
        if !has_entries_within(MOST_ENTRY, &transform) {
            return Err(PlaceFault::ScaleOutOfRange);
        }
        if !has_offset(&transform) {
            return Err(PlaceFault::OffsetTooLarge);
        }
        Ok(Map { transform })
    }

    /// The map of a transformation operator (cartesian_transformation_operator_3d of ISO 10303-42, with
    /// this project's rounding): its origin in nanometres, of sizes of at most 10^16, its three axes, and
    /// its three scales in units of 10^-12. The third axis and the first are those of a frame; the second
    /// is across them, on the side of the one that is given, or of y.
    ///
    /// # Errors
    ///
    /// `ScaleOutOfRange` exactly where a scale is not from 0.001 to 1000, and else `Parallel` exactly
    /// where the first axis is given and is parallel to the third.
    #[tactic(auto, using(crate::proofs::Bounded::of_stretched_columns))]
    pub fn of_operator(
        at: [i64; 3],
        axes: [Option<Dir>; 3],
        scales: [i128; 3],
    ) -> Result<Map, PlaceFault>
        requires { IsWithin (10 ^ 16) (vector_of at) }
        ensures { result ≡ operator_map (vector_of at) (slice_index_or axes 0 None) (slice_index_or axes 1 None) (slice_index_or axes 2 None) (vector_of scales) }
    {
        let scales = vector_of(scales);
        if !are_scales(&scales) {
            return Err(PlaceFault::ScaleOutOfRange);
        }
        let [first, second, third] = axes;
        let found = axes_in_space(third, first)?;
        let columns = scaled_axes(&found, &or_along_y(second), &scales);
        Ok(Map {
            transform: of_columns(&columns, wide_vector_of(at)),
        })
    }

    /// The corner of a point under this map: the nearest place of the grid, in steps of so many
    /// micrometres (a rule of this project). The point is in nanometres, of sizes of at most 2^62.
    pub fn corner(&self, step: u32, p: [i64; 3]) -> [i128; 3]
        requires low { 1 ≤ step }
        requires high { step ≤ 10000 }
        requires point { IsWithin (2 ^ 62) (vector_of p) }
        ensures { vector_of result ≡ corner self.now step (vector_of p) }
    {
        let image = image(&self.transform, &wide_vector_of(p));
        numbers_of(&divided(&image, in_steps(1_000_000_000_000, step)))
    }
}
