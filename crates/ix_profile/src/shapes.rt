ghost use Rattle.std.specs.Prelude.{◌≡◌, ◌^◌, ◌≤◌, ◌+ℤ◌, ◌-ℤ◌, ◌∷◌, [], unsigned_abs, IfOk};
ghost use Rattle.spec_place.specs.Vectors.{IsWithin};
ghost use Rattle.spec_shape.specs.Profiles.{planar, lower, upper, between, i_loop, rectangle, hollow, i_shape};
ghost use Rattle.ix_profile.specs.Outlines.{IsExtent, IsLowerEnd, IsLoop, IsOutline};
ghost use Rattle.ix_profile.specs.Ends.{AreEnds};

use crate::loops::{Loop, Loops};
use crate::span::Span;
use ix_num::round_div;
use spec_space::Vector;
use std::alloc::{AllocError, Global};

fn planar(x: i128, y: i128) -> Vector
    requires x { unsigned_abs x ≤ 10 ^ 16 }
    requires y { unsigned_abs y ≤ 10 ^ 16 }
    ensures value { result ≡ planar x y }
    ensures within { IsWithin (10 ^ 16) result }
{
    Vector { x, y, z: 0 }
}

fn centred(extent: i128) -> Span
    requires { IsExtent extent }
    ensures lower { result.lower ≡ lower extent }
    ensures upper { result.upper ≡ upper extent }
    ensures low { IsLowerEnd result.lower }
    ensures high { IsExtent result.upper }
    ensures ends { AreEnds result }
{
    let lower = round_div(-extent, 2);
    Span {
        lower,
        upper: lower + extent,
    }
}

/// What is left of an extent within a wall at each end.
fn within(span: Span, wall: i128) -> Span
    requires low { IsLowerEnd span.lower }
    requires high { IsExtent span.upper }
    requires wall { IsExtent wall }
    ensures lower { result.lower ≡ span.lower +ℤ wall }
    ensures upper { result.upper ≡ span.upper -ℤ wall }
    ensures ends { AreEnds result }
{
    Span {
        lower: span.lower + wall,
        upper: span.upper - wall,
    }
}

/// The loop of a rectangle between two ends along x and two along y.
fn between(alloc: Global, x: Span, y: Span) -> Result<Loop, AllocError>
    requires x { AreEnds x }
    requires y { AreEnds y }
    ensures value { IfOk result (λ l. l ≡ between x.lower x.upper y.lower y.upper) }
    ensures kept { IfOk result (IsLoop (10 ^ 16)) }
{
    Ok(Loop {
        points: Vec::from_array(
            alloc,
            [
                planar(x.lower, y.lower),
                planar(x.upper, y.lower),
                planar(x.upper, y.upper),
                planar(x.lower, y.upper),
            ],
        )?,
    })
}

/// The loop of an I between its ends: the web between two ends along x, and two flanges that leave what is between along y.
fn i_loop(alloc: Global, x: Span, web: Span, y: Span, between: Span) -> Result<Loop, AllocError>
    requires x { AreEnds x }
    requires web { AreEnds web }
    requires y { AreEnds y }
    requires between { AreEnds between }
    ensures value { IfOk result (λ l. l ≡ i_loop x.lower web.lower web.upper x.upper y.lower between.lower between.upper y.upper) }
    ensures kept { IfOk result (IsLoop (10 ^ 16)) }
{
    Ok(Loop {
        points: Vec::from_array(
            alloc,
            [
                planar(x.lower, y.lower),
                planar(x.upper, y.lower),
                planar(x.upper, between.lower),
                planar(web.upper, between.lower),
                planar(web.upper, between.upper),
                planar(x.upper, between.upper),
                planar(x.upper, y.upper),
                planar(x.lower, y.upper),
                planar(x.lower, between.upper),
                planar(web.lower, between.upper),
                planar(web.lower, between.lower),
                planar(x.lower, between.lower),
            ],
        )?,
    })
}

fn one_loop(alloc: Global, first: Loop) -> Result<Loops, AllocError>
    requires { IsLoop (10 ^ 16) first }
    ensures value { IfOk result (λ loops. loops ≡ first ∷ []) }
    ensures outline { IfOk result (IsOutline (10 ^ 16)) }
{
    let mut loops = Loops::new(alloc);
    loops.push(first)?;
    Ok(loops)
}

fn two_loops(alloc: Global, first: Loop, second: Loop) -> Result<Loops, AllocError>
    requires first { IsLoop (10 ^ 16) first }
    requires second { IsLoop (10 ^ 16) second }
    ensures value { IfOk result (λ loops. loops ≡ first ∷ second ∷ []) }
    ensures outline { IfOk result (IsOutline (10 ^ 16)) }
{
    let mut loops = Loops::new(alloc);
    loops.push(first)?;
    loops.push(second)?;
    Ok(loops)
}

/// The loop of a rectangle (IfcRectangleProfileDef) of two extents in nanometres, centred on 0; of an odd extent the half
/// below 0 is the smaller one (a rule of this project).
///
/// # Errors
///
/// Want of memory.
pub fn rectangle(alloc: Global, x: i128, y: i128) -> Result<Loops, AllocError>
    requires x { IsExtent x }
    requires y { IsExtent y }
    ensures value { IfOk result (λ loops. loops ≡ rectangle x y) }
    ensures outline { IfOk result (λ loops. IsOutline (10 ^ 16) loops) }
{
    one_loop(alloc, between(alloc, centred(x), centred(y))?)
}

/// The loops of a hollow rectangle (IfcRectangleHollowProfileDef): those of the rectangle, and of a hole that lies a
/// wall's thickness within it.
///
/// # Errors
///
/// Want of memory.
pub fn hollow(alloc: Global, x: i128, y: i128, wall: i128) -> Result<Loops, AllocError>
    requires x { IsExtent x }
    requires y { IsExtent y }
    requires wall { IsExtent wall }
    ensures value { IfOk result (λ loops. loops ≡ hollow x y wall) }
    ensures outline { IfOk result (λ loops. IsOutline (10 ^ 16) loops) }
{
    let (x, y) = (centred(x), centred(y));
    let outer = between(alloc, x, y)?;
    two_loops(
        alloc,
        outer,
        between(alloc, within(x, wall), within(y, wall))?,
    )
}

/// The loop of an I shape (IfcIShapeProfileDef) by its overall width, its overall depth, and the thicknesses of its web
/// and of its flanges.
///
/// # Errors
///
/// Want of memory.
pub fn i_shape(
    alloc: Global,
    width: i128,
    depth: i128,
    web: i128,
    flange: i128,
) -> Result<Loops, AllocError>
    requires width { IsExtent width }
    requires depth { IsExtent depth }
    requires web { IsExtent web }
    requires flange { IsExtent flange }
    ensures value { IfOk result (λ loops. loops ≡ i_shape width depth web flange) }
    ensures outline { IfOk result (λ loops. IsOutline (10 ^ 16) loops) }
{
    let (x, y) = (centred(width), centred(depth));
    one_loop(alloc, i_loop(alloc, x, centred(web), y, within(y, flange))?)
}
