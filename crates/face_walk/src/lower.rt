ghost use Rattle.std.specs.Prelude.{◌≡◌, ◌≢◌, ◌<◌, length, List, OnOk};
ghost use Rattle.plane_core.specs.declared.numbers.Plane.{Plane};
ghost use Rattle.face_walk.specs.Works.{IsCrossing, AreLive, IsSafe, IsDivided, IsSettled, IsTurn, AddsFaces};

use crate::faces::OutFace;
use crate::work::{Meeting, Places, Sheet};
use plane_core::{PlaneBook, PlaneId};
use poly_frag::{Frag, Split, split};
use std::alloc::{AllocError, Global};
use tree_pool::Pool;

/// Adds the face of a sheet between two leaves, if their values differ.
fn settle(
    frag: Frag,
    in_front: bool,
    behind: bool,
    faces: &mut Vec<OutFace>,
) -> Result<(), AllocError>
    ensures settled { OnOk result (IsSettled frag in_front behind faces.old.items faces.new.items) }
{
    if in_front == behind {
        return Ok(());
    }
    faces.push(OutFace {
        frag,
        front_out: behind,
    })?;
    Ok(())
}

/// The sheet on the two sides of its own plane waits.
fn pass_own(
    pool: &Pool,
    sheet: Sheet,
    plane: PlaneId,
    sheets: &mut Vec<Sheet>,
) -> Result<(), AllocError>
    requires live { AreLive pool.now sheet.places }
    requires own { plane.k ≡ sheet.frag.support.k }
    requires crossing { IsCrossing pool.now sheet.places plane.k }
    ensures divided { OnOk result ((planes : List Plane) → IsDivided pool.now planes sheet sheets.old.items sheets.new.items) }
{
    let Sheet { frag, places } = sheet;
    let places = places.on_sides(pool, plane, true, false);
    sheets.push(Sheet { frag, places })?;
    Ok(())
}

/// The parts of a sheet on the two sides of another plane wait. The error is want of memory.
fn cut(
    alloc: Global,
    book: &PlaneBook,
    pool: &Pool,
    sheet: &Sheet,
    plane: PlaneId,
    sheets: &mut Vec<Sheet>,
) -> Result<(), AllocError>
    requires safe { IsSafe pool.now book.now sheet.now }
    requires given { plane.k < length book.now }
    requires other { plane.k ≢ sheet.now.frag.support.k }
    requires crossing { IsCrossing pool.now sheet.now.places plane.k }
    ensures divided { OnOk result (IsDivided pool.now book.now sheet.now sheets.old.items sheets.new.items) }
{
    let before = sheet.places.on_sides(pool, plane, true, true);
    let behind = sheet.places.on_sides(pool, plane, false, false);
    match split(alloc, book, &sheet.frag, plane)? {
        Split::Front(frag) => {
            sheets.push(Sheet {
                frag,
                places: before,
            })?;
        }
        Split::Back(frag) => {
            sheets.push(Sheet {
                frag,
                places: behind,
            })?;
        }
        Split::Both(first, second) => {
            sheets.push(Sheet {
                frag: second,
                places: behind,
            })?;
            sheets.push(Sheet {
                frag: first,
                places: before,
            })?;
        }
    }
    Ok(())
}

/// Takes a sheet one step down. A plane that the book does not have gives no faces. The error is want of memory.
fn turn(
    alloc: Global,
    book: &PlaneBook,
    pool: &Pool,
    sheet: Sheet,
    sheets: &mut Vec<Sheet>,
    faces: &mut Vec<OutFace>,
) -> Result<(), AllocError>
    requires safe { IsSafe pool.now book.now sheet }
    ensures turn { OnOk result (IsTurn pool.now book.now sheet sheets.old.items sheets.new.items faces.old.items faces.new.items) }
{
    match sheet.places.meeting(pool) {
        Meeting::Leaves { in_front, behind } => settle(sheet.frag, in_front, behind, faces),
        Meeting::Crossing { plane } => {
            if plane.k as usize >= book.count() {
                return Ok(());
            }
            if plane.k == sheet.frag.support.k {
                return pass_own(pool, sheet, plane, sheets);
            }
            cut(alloc, book, pool, &sheet, plane, sheets)
        }
    }
}

/// Adds the faces that lie on a sheet: its parts across which the values of the trees below its places differ. The error is
/// want of memory.
pub(crate) fn add_faces(
    alloc: Global,
    book: &PlaneBook,
    pool: &Pool,
    sheet: Sheet,
    faces: &mut Vec<OutFace>,
) -> Result<(), AllocError>
    requires safe { IsSafe pool.now book.now sheet }
    ensures added { OnOk result (AddsFaces pool.now book.now sheet faces.old.items faces.new.items) }
{
    let mut sheets = Vec::new(alloc);
    sheets.push(sheet)?;
    'down: while let Some(next) = sheets.pop() {
        turn(alloc, book, pool, next, &mut sheets, faces)?;
    }
    Ok(())
}
