ghost use Rattle.std.specs.Prelude.{◌≡◌, ℕ, ◌≤◌, List, length, IfOk, IfErr};
ghost use Rattle.step_text.specs.Answers.{IsCauseOrWant};
ghost use Rattle.spec_run.specs.Inputs.{most_bytes, IsFileWith, IsInput, LacksUnit};
ghost use Rattle.ix_convert.specs.Conversions.{HasReason};

use ifc_numbers::length_unit;
use ix_place::LengthUnit;
use spec_refusal::UnitFault;
use spec_run::FileFault;
use spec_step::StepFault;
use std::alloc::{AllocError, Global};
use step_table::Table;
use step_text::parse_file;
use thiserror::Error;

/// Why a file is not converted.
#[derive(Debug, Drop, Error)]
pub enum ConvertFault {
    /// The file is refused.
    #[error("the file is refused: {0}")]
    Refused(FileFault),
    /// Memory was wanting.
    #[error("want of memory")]
    NoMemory,
}

/// The fault of a text that is no file, or does not pass the checks.
fn text_fault(fault: StepFault) -> ConvertFault
    ensures { (given : List ℕ) → length given ≤ most_bytes → IsCauseOrWant given fault → HasReason given result }
{
    match fault {
        StepFault::Syntax { at } => ConvertFault::Refused(FileFault::Syntax { at }),
        StepFault::Nested { at } => ConvertFault::Refused(FileFault::Nested { at }),
        StepFault::Schema => ConvertFault::Refused(FileFault::Schema),
        StepFault::DuplicateNumber {
            number,
            first,
            second,
        } => ConvertFault::Refused(FileFault::DuplicateNumber {
            number,
            first,
            second,
        }),
        StepFault::NoMemory => ConvertFault::NoMemory,
    }
}

/// The fault of a file that has no unit of length that is read.
fn unit_fault(fault: UnitFault) -> ConvertFault
    ensures { (given : List ℕ) → LacksUnit given fault → HasReason given result }
{
    match fault {
        UnitFault::NoProject => ConvertFault::Refused(FileFault::NoProject),
        UnitFault::NoLengthUnit => ConvertFault::Refused(FileFault::NoLengthUnit),
    }
}

/// The table of a text that is a file and passes the checks.
fn read_table<'a>(alloc: Global, source: &'a [u8]) -> Result<Table<'a>, ConvertFault>
    requires { length source.now ≤ most_bytes }
    ensures file { IfOk result (λ table. IsFileWith source.now table) }
    ensures refused { IfErr result (HasReason source.now) }
{
    let file = match parse_file(alloc, source) {
        Ok(file) => file,
        Err(fault) => return Err(text_fault(fault)),
    };
    match Table::of(alloc, file) {
        Ok(table) => Ok(table),
        Err(AllocError) => Err(ConvertFault::NoMemory),
    }
}

/// A file that passes the checks, and its unit of length.
#[derive(Drop)]
pub struct OpenFile<'a> {
    pub table: Table<'a>,
    pub unit: LengthUnit,
}

/// Opens a file that has a unit of length.
pub fn open_file<'a>(alloc: Global, source: &'a [u8]) -> Result<OpenFile<'a>, ConvertFault>
    requires { length source.now ≤ most_bytes }
    ensures input { IfOk result (λ file. IsInput source.now file.table file.unit) }
    ensures refused { IfErr result (HasReason source.now) }
{
    let table = read_table(alloc, source)?;
    match length_unit(&table) {
        Ok(unit) => Ok(OpenFile { table, unit }),
        Err(fault) => Err(unit_fault(fault)),
    }
}
