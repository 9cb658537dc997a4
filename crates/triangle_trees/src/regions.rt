ghost use Rattle.std.specs.Prelude.{◌≡◌, ◌^◌, ◌<◌, ◌+◌, ◌*◌, pos, length, map, All, IfOk, IfSome, IfNone, OnOk, List, ◌++◌, [], ◌∷◌};
ghost use Rattle.spec_solid.specs.Triangles.{Triangle, turn};
ghost use Rattle.grid_solid.specs.Triangles.{triangle_of, IsNear, HasForms};
ghost use Rattle.triangle_trees.specs.Forms.{IsGrown, IsRegionBelow, AreRegionsBelow};

use crate::sides::sides_below;
use grid_solid::GridTriangle;
use parity_trees::Region;
use plane_core::PlaneBook;
use smallvec::SmallVec;
use std::alloc::{AllocError, Global};
use triangle_planes::{Forms, forms_of};

/// The region below a triangle, in its column along z; `None` for an upright triangle. Its planes are added to the book.
/// The error is want of memory.
pub(crate) fn region_below(
    alloc: Global,
    book: &mut PlaneBook,
    t: &GridTriangle,
) -> Result<Option<Region>, AllocError>
    requires near { IsNear (triangle_of t.now) }
    requires forms { HasForms (triangle_of t.now) }
    requires room { length book.old + 4 < 2 ^ 31 }
    ensures upright { IfOk result (λ o. IfNone o ((turn (triangle_of t.now)).z ≡ pos 0)) }
    ensures region { IfOk result (λ o. IfSome o (IsRegionBelow book.new (triangle_of t.now))) }
    ensures grown { IsGrown 4 book.old book.new }
{
    match forms_of(t) {
        Forms::Upright => Ok(None),
        Forms::TooLarge => unreachable!(),
        Forms::Reduced(forms) => {
            let sides = sides_below(book, t, forms)?;
            let sides = SmallVec::from_slice(alloc, &sides)?;
            Ok(Some(Region { sides }))
        }
    }
}

/// Adds the region below a triangle, if it has one. The error is want of memory.
fn add_region(
    alloc: Global,
    book: &mut PlaneBook,
    t: &GridTriangle,
    regions: &mut Vec<Region>,
) -> Result<(), AllocError>
    requires near { IsNear (triangle_of t.now) }
    requires forms { HasForms (triangle_of t.now) }
    requires room { length book.old + 4 < 2 ^ 31 }
    ensures added { OnOk result ((ts : List Triangle) → AreRegionsBelow book.old ts regions.old.items → AreRegionsBelow book.new (ts ++ triangle_of t.now ∷ []) regions.new.items) }
    ensures grown { IsGrown 4 book.old book.new }
{
    match region_below(alloc, book, t)? {
        Some(region) => {
            regions.push(region)?;
            Ok(())
        }
        None => Ok(()),
    }
}

/// The regions below triangles. Their planes are added to the book. The error is want of memory.
pub(crate) fn regions_below(
    alloc: Global,
    book: &mut PlaneBook,
    triangles: &[GridTriangle],
) -> Result<Vec<Region>, AllocError>
    requires near { All IsNear (map triangle_of triangles.now) }
    requires forms { All HasForms (map triangle_of triangles.now) }
    requires room { length book.old + 4 * length triangles.now < 2 ^ 31 }
    ensures regions { IfOk result (λ rs. AreRegionsBelow book.new (map triangle_of triangles.now) rs.items) }
    ensures grown { IsGrown (4 * length triangles.now) book.old book.new }
{
    let mut regions = Vec::new(alloc);
    for t in triangles {
        add_region(alloc, book, t, &mut regions)?;
    }
    Ok(regions)
}
