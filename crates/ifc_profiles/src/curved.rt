ghost use Rattle.std.specs.Prelude.{◌≡◌, ◌≤◌, ◌^◌, ◌*◌, length, All, IfOk};
ghost use Rattle.spec_place.specs.Vectors.{IsWithin};
ghost use Rattle.spec_table.specs.Sections.{IsSimple};
ghost use Rattle.spec_geometry.specs.Profiles.{inner_curve, closed_profile, profile_with_voids};
ghost use Rattle.ix_profile.specs.Outlines.{IsOutline};
ghost use Rattle.ifc_numbers.specs.Measures.{file_of};
ghost use Rattle.ifc_numbers.specs.Answers.{ReadsAs};
ghost use Rattle.ifc_profiles.specs.Voids.{with_inner};

use entity_reader::{instance_of_kinds, member_instance, members};
use ifc_axes::{GeomIn, ItemFault};
use ifc_curves::{CURVE_KINDS, count_loop, curve, named_curve, one_loop, with_loop};
use ix_profile::{Loop, Loops};
use spec_step::Param;
use std::alloc::Global;
use step_table::Table;

/// The curve that a member of the list of voids names, and the count with its sweep.
fn inner_curve(
    alloc: Global,
    table: &Table<'_>,
    g: &GeomIn,
    at: u64,
    p: &Param,
    count: u128,
) -> Result<(Loop, u128), ItemFault>
    requires { count ≤ 4096 }
    ensures value { ReadsAs (λ read. read) result (inner_curve (file_of table.now g.now) at p.now count) }
    ensures long { IfOk result (λ read. 3 ≤ length read.0) }
    ensures within { IfOk result (λ read. All (IsWithin (10 ^ 16)) read.0) }
    ensures few { IfOk result (λ read. read.1 ≤ 4096) }
{
    let number = member_instance(table, at, 4, p)?;
    let inner = curve(
        alloc,
        table,
        g,
        instance_of_kinds(table, &CURVE_KINDS, number)?,
    )?;
    let reached = count_loop(count, &inner)?;
    Ok((inner, reached))
}

/// The loops of a profile with those of the voids that a list names, and the count with their sweep.
fn with_voids(
    alloc: Global,
    table: &Table<'_>,
    g: &GeomIn,
    at: u64,
    members: &[Param],
    outer: Loops,
    count: u128,
) -> Result<(Loops, u128), ItemFault>
    requires outline { IsOutline (10 ^ 16) outer }
    requires count { count ≤ 4096 }
    ensures value { ReadsAs (λ read. read) result (with_inner (file_of table.now g.now) at outer members.now count) }
    ensures outline { IfOk result (λ read. IsOutline (10 ^ 16) read.0) }
    ensures few { IfOk result (λ read. read.1 ≤ 4096) }
{
    let mut loops = outer;
    let mut reached = count;
    for p in members {
        let (inner, more) = inner_curve(alloc, table, g, at, p, reached)?;
        loops = with_loop(loops, inner)?;
        reached = more;
    }
    Ok((loops, reached))
}

/// The loop of a profile (IfcArbitraryClosedProfileDef).
pub fn closed_profile(
    alloc: Global,
    table: &Table<'_>,
    g: &GeomIn,
    at: u64,
    count: u128,
) -> Result<(Loops, u128), ItemFault>
    requires simple { IsSimple table.now at }
    requires count { count ≤ 4096 }
    ensures value { ReadsAs (λ read. read) result (closed_profile (file_of table.now g.now) at count) }
    ensures outline { IfOk result (λ read. IsOutline (10 ^ 16) read.0) }
    ensures few { IfOk result (λ read. read.1 ≤ 4096) }
{
    let outer = named_curve(alloc, table, g, at, 3)?;
    let reached = count_loop(count, &outer)?;
    Ok((one_loop(alloc, outer)?, reached))
}

/// The loops of a profile (IfcArbitraryProfileDefWithVoids).
pub fn profile_with_voids(
    alloc: Global,
    table: &Table<'_>,
    g: &GeomIn,
    at: u64,
    count: u128,
) -> Result<(Loops, u128), ItemFault>
    requires simple { IsSimple table.now at }
    requires count { count ≤ 4096 }
    ensures value { ReadsAs (λ read. read) result (profile_with_voids (file_of table.now g.now) at count) }
    ensures outline { IfOk result (λ read. IsOutline (10 ^ 16) read.0) }
    ensures few { IfOk result (λ read. read.1 ≤ 4096) }
{
    let (outer, reached) = closed_profile(alloc, table, g, at, count)?;
    with_voids(alloc, table, g, at, members(table, at, 4)?, outer, reached)
}
