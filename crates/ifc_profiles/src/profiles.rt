ghost use Rattle.std.specs.Prelude.{◌≡◌, ◌≤◌, ◌^◌, ◌*◌, IfOk};
ghost use Rattle.spec_table.specs.Sections.{IsSimple};
ghost use Rattle.spec_entity.specs.Reads.{named_instance};
ghost use Rattle.spec_geometry.specs.Profiles.{profile_kinds, profile, named_profile};
ghost use Rattle.ix_profile.specs.Outlines.{IsOutline};
ghost use Rattle.ifc_numbers.specs.Measures.{file_of};
ghost use Rattle.ifc_numbers.specs.Answers.{ReadsAs, WantsMemoryOnlyWhere};

use crate::curved::{closed_profile, profile_with_voids};
use crate::measured::{hollow_profile, i_shape_profile, rectangle_profile};
use entity_reader::{has_kind, named_instance};
use ifc_axes::{GeomIn, ItemFault};
use ifc_kinds::Kind;
use ix_profile::Loops;
use std::alloc::Global;
use step_table::Table;

/// The kinds of profiles that are read.
const PROFILE_KINDS: [Kind; 5] = [
    Kind::ArbitraryClosedProfileDef,
    Kind::ArbitraryProfileDefWithVoids,
    Kind::RectangleProfileDef,
    Kind::RectangleHollowProfileDef,
    Kind::IShapeProfileDef,
];

/// The loops of a profile, and the count with their sweep.
fn profile(
    alloc: Global,
    table: &Table<'_>,
    g: &GeomIn,
    at: u64,
    count: u128,
) -> Result<(Loops, u128), ItemFault>
    requires simple { IsSimple table.now at }
    requires count { count ≤ 4096 }
    ensures value { ReadsAs (λ read. read) result (profile (file_of table.now g.now) at count) }
    ensures outline { IfOk result (λ read. IsOutline (3 * 10 ^ 16) read.0) }
    ensures few { IfOk result (λ read. read.1 ≤ 4096) }
{
    if has_kind(table, at, Kind::ArbitraryClosedProfileDef) {
        return closed_profile(alloc, table, g, at, count);
    }
    if has_kind(table, at, Kind::ArbitraryProfileDefWithVoids) {
        return profile_with_voids(alloc, table, g, at, count);
    }
    if has_kind(table, at, Kind::RectangleProfileDef) {
        return rectangle_profile(alloc, table, g, at, count);
    }
    if has_kind(table, at, Kind::RectangleHollowProfileDef) {
        return hollow_profile(alloc, table, g, at, count);
    }
    i_shape_profile(alloc, table, g, at, count)
}

/// The loops of the profile that a wanted attribute names, the outer one first, in nanometres in the plane; and the count of
/// triangles and half-spaces with six triangles more for each edge of a loop (a limit of this project). An open curve is closed
/// by a straight edge (a rule of this project).
///
/// # Errors
///
/// The first refusal in the order of reading, or `NoMemory`: only where the instance has one of the kinds of profiles.
pub fn named_profile(
    alloc: Global,
    table: &Table<'_>,
    g: &GeomIn,
    at: u64,
    position: usize,
    count: u128,
) -> Result<(Loops, u128), ItemFault>
    requires simple { IsSimple table.now at }
    requires counted { 1 ≤ position }
    requires count { count ≤ 4096 }
    ensures value { ReadsAs (λ read. read) result (named_profile (file_of table.now g.now) at position count) }
    ensures outline { IfOk result (λ read. IsOutline (3 * 10 ^ 16) read.0) }
    ensures few { IfOk result (λ read. read.1 ≤ 4096) }
    ensures memory { WantsMemoryOnlyWhere result (named_instance table.now profile_kinds at position) }
{
    let number = named_instance(table, &PROFILE_KINDS, at, position)?;
    profile(alloc, table, g, number, count)
}
