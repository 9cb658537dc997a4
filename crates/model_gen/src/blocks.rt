ghost use Rattle.std.specs.Prelude.{◌≡◌, ◌≤◌, ◌++◌, ◌*◌, pos, ◌+ℤ◌, unsigned_abs, OnOk};
ghost use Rattle.model_gen.specs.Model.{placement, placement_in, block, plain_wall, window, wall, slab, hole_at, hole};

use crate::lines::{
    put_axes, put_extrusion, put_opening, put_placement, put_placement_in, put_point,
    put_rectangle, put_representation, put_shape, put_slab_line, put_voids, put_wall_line,
};
use crate::numbers::Place;
use std::alloc::AllocError;

/// Appends a placement at a point in the world.
fn put_place(page: &mut Vec<u8>, number: u32, place: &Place) -> Result<(), AllocError>
    requires { number ≤ 20000 }
    ensures { OnOk result (page.new.items ≡ page.old.items ++ placement number place.now.x place.now.y place.now.z) }
{
    put_point(page, number, place)?;
    put_axes(page, number + 1, number)?;
    put_placement(page, number + 2, number + 1)
}

/// Appends a placement at a point in another placement.
fn put_place_in(
    page: &mut Vec<u8>,
    parent: u32,
    number: u32,
    place: &Place,
) -> Result<(), AllocError>
    requires { number ≤ 20000 }
    ensures { OnOk result (page.new.items ≡ page.old.items ++ placement_in parent number place.now.x place.now.y place.now.z) }
{
    put_point(page, number, place)?;
    put_axes(page, number + 1, number)?;
    put_placement_in(page, number + 2, parent, number + 1)
}

/// Appends the shape of a block.
fn put_block(
    page: &mut Vec<u8>,
    number: u32,
    length: u32,
    width: u32,
    height: u32,
) -> Result<(), AllocError>
    requires { number ≤ 20000 }
    ensures { OnOk result (page.new.items ≡ page.old.items ++ block number length width height) }
{
    put_rectangle(page, number, length, width)?;
    put_extrusion(page, number + 1, number, height)?;
    put_representation(page, number + 2, number + 1)?;
    put_shape(page, number + 3, number + 2)
}

/// Appends a wall without its window.
fn put_plain_wall(page: &mut Vec<u8>, number: u32, x: i64) -> Result<(), AllocError>
    requires { number ≤ 10000 }
    ensures { OnOk result (page.new.items ≡ page.old.items ++ plain_wall number x) }
{
    put_place(page, number, &Place { x, y: 0, z: 0 })?;
    put_block(page, number + 3, 5000, 200, 3000)?;
    put_wall_line(page, number + 7, number + 2, number + 6)
}

/// Appends the window of the wall of a number.
fn put_window(page: &mut Vec<u8>, number: u32, width: u32) -> Result<(), AllocError>
    requires { number ≤ 10000 }
    ensures { OnOk result (page.new.items ≡ page.old.items ++ window number width) }
{
    put_place_in(page, number + 2, number + 8, &Place { x: 0, y: 0, z: 900 })?;
    put_block(page, number + 11, width, 400, 1200)?;
    put_opening(page, number + 15, number + 10, number + 14)?;
    put_voids(page, number + 16, number + 7, number + 15)
}

/// Appends wall i, counted from 0.
pub(crate) fn put_wall(page: &mut Vec<u8>, i: u32) -> Result<(), AllocError>
    requires { i ≤ 150 }
    ensures { OnOk result (page.new.items ≡ page.old.items ++ wall i) }
{
    put_plain_wall(page, 100 + 20 * i, i64::from(6000 * i))?;
    put_window(page, 100 + 20 * i, 800 + 100 * (i % 5))
}

/// Appends the slab, and the shape of its holes.
pub(crate) fn put_slab(page: &mut Vec<u8>) -> Result<(), AllocError>
    ensures { OnOk result (page.new.items ≡ page.old.items ++ slab) }
{
    put_place(
        page,
        10000,
        &Place {
            x: 0,
            y: 20000,
            z: 0,
        },
    )?;
    put_block(page, 10003, 16000, 11000, 250)?;
    put_slab_line(page, 10007, 10002, 10006)?;
    put_block(page, 10008, 500, 500, 350)
}

/// Appends a hole of the slab.
fn put_hole_at(page: &mut Vec<u8>, number: u32, x: i64, y: i64) -> Result<(), AllocError>
    requires { number ≤ 20000 }
    ensures { OnOk result (page.new.items ≡ page.old.items ++ hole_at number x y) }
{
    put_place_in(page, 10002, number, &Place { x, y, z: -50 })?;
    put_opening(page, number + 3, number + 2, 10011)?;
    put_voids(page, number + 4, 10007, number + 3)
}

/// So many metres from a place.
fn metres_from(start: i64, metres: u32) -> i64
    requires least { unsigned_abs start ≤ 10000 }
    requires most { metres ≤ 150 }
    ensures { result ≡ pos (1000 * metres) +ℤ start }
{
    i64::from(1000 * metres) + start
}

/// Appends hole i, counted from 0.
pub(crate) fn put_hole(page: &mut Vec<u8>, i: u32) -> Result<(), AllocError>
    requires { i ≤ 150 }
    ensures { OnOk result (page.new.items ≡ page.old.items ++ hole i) }
{
    put_hole_at(
        page,
        10100 + 10 * i,
        metres_from(-7250, i % 15),
        metres_from(-4750, i / 15),
    )
}
