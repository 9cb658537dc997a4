ghost use Rattle.std.specs.Prelude.{◌≡◌};
ghost use Rattle.spec_table.specs.Sections.{IsSimple};
ghost use Rattle.spec_geometry.specs.Units.{prefix_named, prefix, si_unit, conversion_based_unit, unit, project_unit, length_unit};

use crate::numbers::{wanted_enumeration, wanted_number};
use entity_reader::{first_project, has_kind, named_instance, refusal_of, unit_of};
use ifc_kinds::Kind;
use ix_place::{LengthUnit, Prefix};
use spec_refusal::{Refusal, UnitFault};
use step_table::Table;

/// The prefix of a word, in letters of any case.
fn prefix_named(word: &[u8]) -> Option<Prefix>
    ensures { result ≡ prefix_named word.now }
{
    match word {
        _ if word.eq_ignore_ascii_case(b"KILO") => Some(Prefix::Kilo),
        _ if word.eq_ignore_ascii_case(b"HECTO") => Some(Prefix::Hecto),
        _ if word.eq_ignore_ascii_case(b"DECA") => Some(Prefix::Deca),
        _ if word.eq_ignore_ascii_case(b"DECI") => Some(Prefix::Deci),
        _ if word.eq_ignore_ascii_case(b"CENTI") => Some(Prefix::Centi),
        _ if word.eq_ignore_ascii_case(b"MILLI") => Some(Prefix::Milli),
        _ if word.eq_ignore_ascii_case(b"MICRO") => Some(Prefix::Micro),
        _ => None,
    }
}

/// The prefix of a unit (IfcSIUnit), if it is set.
fn prefix(table: &Table<'_>, at: u64) -> Result<Option<Prefix>, Refusal>
    requires { IsSimple table.now at }
    ensures { result ≡ prefix table.now at }
{
    match table.attr_enum(at, 3) {
        Ok(Some(word)) => match prefix_named(word) {
            Some(prefix) => Ok(Some(prefix)),
            None => Err(Refusal::BadAttribute { at, position: 3 }),
        },
        Ok(None) => Ok(None),
        Err(fault) => Err(refusal_of(fault)),
    }
}

/// The metre with a prefix (IfcSIUnit).
fn si_unit(table: &Table<'_>, at: u64) -> Result<LengthUnit, Refusal>
    requires { IsSimple table.now at }
    ensures { result ≡ si_unit table.now at }
{
    wanted_enumeration(table, at, 2)?;
    let prefix = prefix(table, at)?;
    let name = wanted_enumeration(table, at, 4)?;
    if name.eq_ignore_ascii_case(b"METRE") {
        return Ok(LengthUnit::of_metre(prefix));
    }
    Err(Refusal::BadAttribute { at, position: 4 })
}

/// A factor over the metre with a prefix (IfcConversionBasedUnit, IfcMeasureWithUnit).
fn conversion_based_unit(table: &Table<'_>, at: u64) -> Result<LengthUnit, Refusal>
    requires { IsSimple table.now at }
    ensures { result ≡ conversion_based_unit table.now at }
{
    let measure = named_instance(table, &[Kind::MeasureWithUnit], at, 4)?;
    let factor = wanted_number(table, measure, 1)?;
    let unit = si_unit(table, named_instance(table, &[Kind::SiUnit], measure, 2)?)?;
    unit.converted(factor).ok_or(Refusal::BadAttribute {
        at: measure,
        position: 1,
    })
}

fn unit(table: &Table<'_>, at: u64) -> Result<LengthUnit, Refusal>
    requires { IsSimple table.now at }
    ensures { result ≡ unit table.now at }
{
    if has_kind(table, at, Kind::SiUnit) {
        si_unit(table, at)
    } else {
        conversion_based_unit(table, at)
    }
}

/// The unit of length of a project, if it has one.
fn project_unit(table: &Table<'_>, project: u64) -> Result<Option<LengthUnit>, Refusal>
    requires { IsSimple table.now project }
    ensures { result ≡ project_unit table.now project }
{
    match unit_of(table, project)? {
        Some(at) => Ok(Some(unit(table, at)?)),
        None => Ok(None),
    }
}

/// The unit of length of a file (IFC4), by its first project. Takes no memory.
///
/// # Errors
///
/// `NoProject` exactly where no project stands in the file, and `NoLengthUnit` exactly where the units of the first one
/// give no metre with a prefix and no factor over one, from 1 to 10^12 nanometres.
pub fn length_unit(table: &Table<'_>) -> Result<LengthUnit, UnitFault>
    ensures { result ≡ length_unit table.now }
{
    let project = first_project(table).ok_or(UnitFault::NoProject)?;
    match project_unit(table, project) {
        Ok(Some(unit)) => Ok(unit),
        _ => Err(UnitFault::NoLengthUnit),
    }
}
