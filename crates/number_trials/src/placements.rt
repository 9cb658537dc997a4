ghost use Rattle.std.specs.Prelude.{◌≡◌};

use ix_place::{Dir, Frame, HalfSpace, LengthUnit, Map, PlaceFault, Prefix, Transform};
use spec_space::{Plane, Vector};

const ONE: i128 = 1_000_000_000;

const UNIT: i128 = 1_000_000_000_000;

const MOST: i64 = 10_000_000_000_000_000;

fn vector(x: i128, y: i128, z: i128) -> Vector
    ensures { result ≡ record { x = x; y = y; z = z } }
{
    Vector { x, y, z }
}

/// The matrix of three rows, with an offset.
fn by_rows(rows: [[i128; 3]; 3], off: [i128; 3]) -> Transform {
    let [[a, b, c], [d, e, f], [g, h, i]] = rows;
    let [x, y, z] = off;
    Transform {
        x: vector(a, b, c),
        y: vector(d, e, f),
        z: vector(g, h, i),
        off: vector(x, y, z),
    }
}

/// A length of one in feet.
fn one_foot() -> Option<i64> {
    LengthUnit::of_metre(None)
        .converted(304_800_000_000)?
        .length(UNIT)
}

#[test]
fn reads_lengths_in_feet(rt: HostRuntime) {
    assert!(rt; one_foot() == Some(304_800_000));
}

#[test]
fn reads_lengths_in_millimetres(rt: HostRuntime) {
    let thousandth = LengthUnit::of_metre(Some(Prefix::Milli));
    assert!(rt; thousandth.length(400_000) == Some(0));
    assert!(rt; thousandth.length(-1_500_000) == Some(-1));
}

#[test]
fn reads_lengths_in_metres(rt: HostRuntime) {
    let metre = LengthUnit::of_metre(None);
    assert!(rt; metre.length(10_000_000 * UNIT) == Some(MOST));
    assert!(rt; metre.length(10_000_000 * UNIT + 500).is_none());
}

#[test]
fn converts_units(rt: HostRuntime) {
    let metre = LengthUnit::of_metre(None);
    let thousand = LengthUnit::of_metre(Some(Prefix::Kilo));
    assert!(rt; metre.converted(1_000 * UNIT) == Some(thousand));
    assert!(rt; metre.converted(1_000 * UNIT + 500).is_none());
    assert!(rt; metre.converted(499).is_none());
}

/// The direction along the first axis, turned by 30 degrees to the second.
fn slanted() -> Result<Dir, PlaceFault> {
    Dir::of_triple([866_025_400_000, 500_000_000_000, 0])
}

#[test]
fn finds_directions(rt: HostRuntime) {
    let slanting = Dir {
        v: vector(866_025_403, 500_000_002, 0),
    };
    let upwards = Dir {
        v: vector(0, 0, ONE),
    };
    assert!(rt; slanted() == Ok(slanting));
    assert!(rt; Dir::of_triple([0, 0, 1]) == Ok(upwards));
    assert!(rt; Dir::of_triple([0, 0, 0]) == Err(PlaceFault::ZeroDirection));
}

/// The frame at 2600 and 1200 metres, turned by 30 degrees.
fn slanted_frame() -> Result<Frame, PlaceFault> {
    let up = Dir::of_triple([0, 0, 1])?;
    let at = [2_600_000_000_000_000, 1_200_000_000_000_000, 0];
    Frame::of_axes(at, Some(up), Some(slanted()?))
}

/// The frame turned by 30 degrees and back.
fn turned_back() -> Result<Frame, PlaceFault> {
    let back = Dir::of_triple([866_025_400_000, -500_000_000_000, 0])?;
    slanted_frame()?.then(&Frame::of_axes([0, 0, 0], None, Some(back))?)
}

#[test]
fn finds_frames(rt: HostRuntime) -> Result<(), PlaceFault> {
    let rows = [
        [866_025_403, -500_000_002, 0],
        [500_000_002, 866_025_403, 0],
        [0, 0, ONE],
    ];
    let off = [2_600_000_000_000_000, 1_200_000_000_000_000, 0];
    assert!(rt; slanted_frame()?.transform == by_rows(rows, off));
    assert!(rt; turned_back()?.transform.x == vector(ONE, 0, 0));
    Ok(())
}

#[test]
fn inverts_frames(rt: HostRuntime) -> Result<(), PlaceFault> {
    let rows = [
        [866_025_403, 500_000_002, 0],
        [-500_000_002, 866_025_403, 0],
        [0, 0, ONE],
    ];
    let off = [-2_851_666_050_200_000, 260_769_521_600_000, 0];
    assert!(rt; slanted_frame()?.inverse()?.transform == by_rows(rows, off));
    Ok(())
}

/// The frame that is as far along the first axis as a frame may be.
fn far() -> Result<Frame, PlaceFault> {
    Frame::of_axes([MOST, 0, 0], None, None)
}

/// The frame a short way from the origin.
fn step() -> Result<Frame, PlaceFault> {
    Frame::of_axes([1, 2, 3], None, None)
}

/// The place of an opening with a chain of frames of its own, in the element that it cuts.
fn of_opening(far: Frame, step: Frame) -> Result<Frame, PlaceFault> {
    Frame::relative_of_chains(&[(7, far), (8, step)], &[(7, far), (8, step), (9, step)])
}

#[test]
fn joins_frames(rt: HostRuntime) -> Result<(), PlaceFault> {
    let (far, step) = (far()?, step()?);
    assert!(rt; far.then(&Frame::identity()) == Ok(far));
    assert!(rt; of_opening(far, step) == Ok(step));
    assert!(rt; Frame::relative(&[], &[step]) == Ok(step));
    Ok(())
}

#[test]
fn refuses_far_frames(rt: HostRuntime) -> Result<(), PlaceFault> {
    let (far, step) = (far()?, Frame::of_axes([1, 0, 0], None, None)?);
    assert!(rt; far.then(&step) == Err(PlaceFault::OffsetTooLarge));
    assert!(rt; Frame::of_chain(&[far, step]) == Err(PlaceFault::OffsetTooLarge));
    Ok(())
}

/// The inverse of a frame that is far along the first two axes, and turned by 45 degrees.
fn oblique_inverse() -> Result<Frame, PlaceFault> {
    let diagonal = Dir::of_triple([1, 1, 0])?;
    Frame::of_axes([MOST, MOST, 0], None, Some(diagonal))?.inverse()
}

/// The frame of the axis upwards and a direction that is so far from it.
fn beside(x: u16) -> Result<Frame, PlaceFault> {
    let up = Dir::of_triple([0, 0, 1])?;
    let direction = Dir {
        v: vector(i128::from(x), 0, ONE),
    };
    Frame::of_axes([0, 0, 0], Some(up), Some(direction))
}

#[test]
fn refuses_frames(rt: HostRuntime) {
    assert!(rt; oblique_inverse() == Err(PlaceFault::OffsetTooLarge));
    assert!(rt; beside(999) == Err(PlaceFault::Parallel));
    assert!(rt; beside(1000).is_ok());
}

/// The map that mirrors by the second axis.
fn mirrored() -> Result<Map, PlaceFault> {
    let axes = [
        Some(Dir::of_triple([UNIT, 0, 0])?),
        Some(Dir::of_triple([0, -UNIT, 0])?),
        Some(Dir::of_triple([0, 0, UNIT])?),
    ];
    Map::of_operator([0, 0, 0], axes, [UNIT, UNIT, UNIT])
}

#[test]
fn mirrors_by_the_second_axis(rt: HostRuntime) -> Result<(), PlaceFault> {
    let mirrored = mirrored()?;
    let rows = [[ONE, 0, 0], [0, -ONE, 0], [0, 0, ONE]];
    assert!(rt; mirrored.transform == by_rows(rows, [0, 0, 0]));
    let corner = mirrored.corner(1000, [2_000_000_000, 2_000_000_000, 0]);
    assert!(rt; corner == [2000, -2000, 0]);
    Ok(())
}

/// The map that stretches each axis by a scale.
fn stretching(scale: i128) -> Result<Map, PlaceFault> {
    Map::of_operator([0, 0, 0], [None, None, None], [scale, scale, scale])
}

#[test]
fn joins_maps(rt: HostRuntime) -> Result<(), PlaceFault> {
    let great = stretching(1000 * UNIT)?;
    let far = Map::of_frame(&Frame::of_axes([0, 0, MOST], None, None)?);
    assert!(rt; great.then(&stretching(UNIT)?) == Ok(great));
    assert!(rt; great.then(&stretching(UNIT + 1000)?) == Err(PlaceFault::ScaleOutOfRange));
    assert!(rt; great.then(&far) == Err(PlaceFault::OffsetTooLarge));
    Ok(())
}

#[test]
fn bounds_the_scales_of_maps(rt: HostRuntime) {
    assert!(rt; stretching(1000 * UNIT + 1) == Err(PlaceFault::ScaleOutOfRange));
    assert!(rt; stretching(UNIT / 1000 - 1) == Err(PlaceFault::ScaleOutOfRange));
    assert!(rt; stretching(UNIT / 1000).is_ok());
}

/// The map of two axes that are parallel, and of a first scale.
fn parallel(scale: i128) -> Result<Map, PlaceFault> {
    let up = Some(Dir::of_triple([0, 0, 1])?);
    Map::of_operator([0, 0, 0], [up, None, up], [scale, UNIT, UNIT])
}

#[test]
fn refuses_maps(rt: HostRuntime) {
    assert!(rt; parallel(0) == Err(PlaceFault::ScaleOutOfRange));
    assert!(rt; parallel(UNIT) == Err(PlaceFault::Parallel));
}

/// The half-space of a map that is turned by 45 degrees, 500 mm along the first axis.
fn slanted_half(agreement: bool) -> Result<HalfSpace, PlaceFault> {
    let axis = Dir::of_triple([UNIT, 0, UNIT])?;
    let frame = Frame::of_axes([500_000_000, 0, 0], Some(axis), None)?;
    Map::of_frame(&frame).half_space(1000, agreement)
}

#[test]
fn finds_half_spaces(rt: HostRuntime) -> Result<(), PlaceFault> {
    let plane = Plane {
        a: 7_071_068,
        b: 0,
        c: 7_071_068,
        d: 7_071_068 * 500,
    };
    let in_front = HalfSpace {
        plane,
        in_front: true,
        corner: vector(500, 0, 0),
    };
    assert!(rt; slanted_half(false)? == in_front);
    assert!(rt; !slanted_half(true)?.in_front);
    Ok(())
}

#[test]
fn finds_no_half_space_of_a_flat_map(rt: HostRuntime) {
    let flat = Map {
        transform: Transform {
            x: vector(ONE, ONE, 0),
            y: vector(0, 0, 0),
            z: vector(0, 0, ONE),
            off: vector(0, 0, 0),
        },
    };
    assert!(rt; flat.half_space(1, true) == Err(PlaceFault::ZeroDirection));
}
