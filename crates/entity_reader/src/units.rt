ghost use Rattle.std.specs.Prelude.{◌≡◌, ◌≤◌, IsTrue, IfSome, IfOk};
ghost use Rattle.spec_table.specs.Sections.{IsSimple};
ghost use Rattle.spec_entity.specs.Units.{says, first_project, length_unit_in, first_length_unit, is_length_unit, unit_of};
ghost use Rattle.step_table.specs.Answers.{as_reading_if_set};

use crate::kinds::{has_kind, is_one_of, named_instance};
use crate::lists::members;
use ifc_kinds::Kind;
use spec_refusal::Refusal;
use spec_step::Param;
use spec_table::AttrFault;
use step_table::Table;

/// Whether an attribute is this enumeration, in letters of any case.
fn says(reading: Result<Option<&[u8]>, AttrFault>, word: &[u8]) -> bool
    ensures { result ≡ says word.now (as_reading_if_set reading.entry) }
{
    match reading {
        Ok(Some(text)) => text.eq_ignore_ascii_case(word),
        _ => false,
    }
}

/// The first project of the file (IfcProject).
pub fn first_project(table: &Table<'_>) -> Option<u64>
    ensures value { result ≡ first_project table.now }
    ensures simple { IfSome result (IsSimple table.now) }
{
    table
        .instances()
        .iter()
        .map(|instance| instance.number)
        .find(|number| has_kind(table, *number, Kind::Project))
}

/// Whether the instance is a unit of length.
fn is_length_unit(table: &Table<'_>, n: u64) -> bool
    ensures value { result ≡ is_length_unit table.now n }
    ensures simple { IsTrue result → IsSimple table.now n }
{
    is_one_of(table, &[Kind::SiUnit, Kind::ConversionBasedUnit], n)
        && says(table.attr_enum(n, 2), b"LENGTHUNIT")
}

/// The first of the members of Units that is a unit of length.
fn first_length_unit(table: &Table<'_>, units: u64, members: &[Param]) -> Option<u64>
    ensures value { result ≡ first_length_unit table.now units members.now }
    ensures simple { IfSome result (IsSimple table.now) }
{
    for member in members {
        if let Ok(n) = table.param_ref(units, 1, member) {
            if is_length_unit(table, n) {
                return Some(n);
            }
        }
    }
    None
}

/// The unit of length of a project, if it has one: an IfcSIUnit or IfcConversionBasedUnit.
pub fn unit_of(table: &Table<'_>, project: u64) -> Result<Option<u64>, Refusal>
    requires { IsSimple table.now project }
    ensures value { result ≡ unit_of table.now project }
    ensures simple { IfOk result (λ unit. IfSome unit (IsSimple table.now)) }
{
    let units = named_instance(table, &[Kind::UnitAssignment], project, 9)?;
    Ok(first_length_unit(table, units, members(table, units, 1)?))
}
