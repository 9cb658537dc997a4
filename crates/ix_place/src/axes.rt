ghost use Rattle.std.specs.Prelude.{◌≡◌, true, false, pos, ◌^◌, ◌≤◌, IfOk, Err, Ok, unwrap_or, unsigned_abs, if◌then◌else◌};
ghost use Rattle.spec_place.specs.Vectors.{vector_of, is_zero, along_x, along_z, IsWithin};
ghost use Rattle.spec_place.specs.Directions.{unit};
ghost use Rattle.spec_place.specs.Axes.{rest, vanishes, reference_rest, is_parallel, across, axes_along, axes_of, axes};
ghost use Rattle.spec_place.specs.declared.fault.PlaceFault.TheVariants.{Parallel};
ghost use Rattle.ix_place.specs.Bounds.{AreSmall};

use crate::direction::unit;
use crate::types::Dir;
use crate::vector::{
    ALONG_X, ALONG_Y, ALONG_Z, ONE, clamped, cross, divided, dot, is_within, minus, times,
};
use spec_place::{Axes, PlaceFault};
use spec_space::Vector;

/// What is left of a direction without its part along the axis, in units of 10^-12.
fn rest(axis: &Vector, r: &Vector) -> Vector
    requires axis { IsWithin (10 ^ 9) axis.now }
    requires direction { IsWithin (10 ^ 9) r.now }
    ensures value { result ≡ rest axis.now r.now }
    ensures within { IsWithin (10 ^ 18) result }
{
    let part = times(dot(r, axis), axis);
    divided(
        &minus(&times(1_000_000_000_000_000_000, r), &part),
        1_000_000_000_000_000,
    )
}

fn vanishes(v: &Vector) -> bool
    ensures value { result ≡ vanishes v.now }
{
    is_within(999_999, v)
}

/// What is left of the reference direction, and of another one where it is unset.
fn reference_rest(axis: &Vector, ref_dir: Option<Dir>) -> Result<Vector, PlaceFault>
    requires { IsWithin (10 ^ 9) axis.now }
    ensures value { result ≡ (if is_parallel axis.now ref_dir then Err Parallel else Ok (reference_rest axis.now ref_dir)) }
    ensures within { IfOk result (λ v. IsWithin (10 ^ 18) v) }
    ensures some { IfOk result (λ v. is_zero v ≡ false) }
{
    if let Some(r) = ref_dir {
        let left = rest(axis, &r.v);
        if vanishes(&left) {
            return Err(PlaceFault::Parallel);
        }
        return Ok(left);
    }
    let left = rest(axis, &ALONG_X);
    if vanishes(&left) {
        return Ok(rest(axis, &ALONG_Y));
    }
    Ok(left)
}

/// The direction across two others.
fn across(u: &Vector, v: &Vector) -> Vector
    requires first { IsWithin (10 ^ 9) u.now }
    requires second { IsWithin (10 ^ 9) v.now }
    ensures value { result ≡ across u.now v.now }
    ensures within { IsWithin (10 ^ 9) result }
{
    clamped(&divided(&cross(u, v), ONE))
}

/// The axes with z along the axis, and x along a vector across it.
fn axes_along(axis: &Vector, left: &Vector) -> Axes
    requires axis { IsWithin (10 ^ 9) axis.now }
    requires left { IsWithin (10 ^ 18) left.now }
    requires some { is_zero left.now ≡ false }
    ensures value { result ≡ axes_along axis.now (unit left.now) }
    ensures small { AreSmall result }
{
    let x = unit(left).v;
    Axes {
        x,
        y: across(axis, &x),
        z: *axis,
    }
}

fn axes_of(axis: &Vector, ref_dir: Option<Dir>) -> Result<Axes, PlaceFault>
    requires { IsWithin (10 ^ 9) axis.now }
    ensures value { result ≡ axes_of axis.now ref_dir }
    ensures small { IfOk result AreSmall }
{
    let left = reference_rest(axis, ref_dir)?;
    Ok(axes_along(axis, &left))
}

/// The axes of an axis and a reference direction.
pub fn axes_in_space(axis: Option<Dir>, ref_dir: Option<Dir>) -> Result<Axes, PlaceFault>
    ensures value { result ≡ axes axis ref_dir }
    ensures small { IfOk result AreSmall }
{
    match axis {
        Some(z) => axes_of(&z.v, ref_dir),
        None => axes_of(&ALONG_Z, ref_dir),
    }
}
