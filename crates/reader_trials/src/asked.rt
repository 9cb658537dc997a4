use crate::breps::brep_text;
use crate::curves::curve_text;
use crate::elements::{body_text, openings_text};
use crate::entities::entities_text;
use crate::numbers::{Value, unit_text, value_text};
use crate::placements::{Mapped, chain_text, map_text};
use crate::profiles::profile_text;
use crate::solids::solid_text;
use crate::tables::{
    Reading, found_text, instances_text, members_text, readings_text, source_text,
};
use ifc_numbers::{GeomIn, length_unit};
use ix_place::{LengthUnit, Prefix};
use std::alloc::{AllocError, Global};
use step_table::Table;
use step_text::parse_file;

/// What a test asks of the text of a file.
#[derive(Clone, Copy)]
pub(crate) enum Asked {
    /// Whether it is a file, or why it is none.
    File,
    /// The attributes of the sample of tables, read in one way.
    Readings(Reading),
    /// The members of the list of the sample of tables.
    Members,
    /// The source of the table.
    Source,
    /// The instances in the order of the file.
    Instances,
    /// The instance of a number.
    Found(u64),
    /// Where the unit of length of the first project stands, and the elements.
    Entities,
    /// The unit of length.
    Unit,
    /// An attribute of the sample of numbers.
    Value(Value),
    /// The chain of placements of a product.
    Chain(u64),
    /// A map of the sample of placements.
    Map(Mapped),
    Curve,
    Profile,
    Brep,
    /// The solid of a number.
    Solid(u64),
    /// The openings of the sample of elements.
    Openings,
    /// The element of a number.
    Body(u64),
}

/// Lengths in millimetres, on the grid of a millimetre.
pub(crate) fn millimetres() -> GeomIn {
    GeomIn {
        unit: LengthUnit::of_metre(Some(Prefix::Milli)),
        step: 1000,
    }
}

/// The unit of length of a file, on the grid of a millimetre.
pub(crate) fn grid_of(table: &Table<'_>) -> Option<GeomIn> {
    match length_unit(table) {
        Ok(unit) => Some(GeomIn { unit, step: 1000 }),
        Err(_) => None,
    }
}

fn table_text(alloc: Global, table: &Table<'_>, asked: Asked) -> Result<String, AllocError> {
    match asked {
        Asked::File => String::from_str(alloc, "Ok"),
        Asked::Readings(reading) => readings_text(alloc, table, reading),
        Asked::Members => members_text(alloc, table),
        Asked::Source => source_text(alloc, table),
        Asked::Instances => instances_text(alloc, table),
        Asked::Found(number) => found_text(alloc, table, number),
        Asked::Entities => entities_text(alloc, table),
        Asked::Unit => unit_text(alloc, table),
        Asked::Value(value) => value_text(alloc, table, value),
        Asked::Chain(product) => chain_text(alloc, table, product),
        Asked::Map(mapped) => map_text(alloc, table, mapped),
        Asked::Curve => curve_text(alloc, table),
        Asked::Profile => profile_text(alloc, table),
        Asked::Brep => brep_text(alloc, table),
        Asked::Solid(number) => solid_text(alloc, table, number),
        Asked::Openings => openings_text(alloc, table),
        Asked::Body(number) => body_text(alloc, table, number),
    }
}

/// What a text answers, or the fault that makes it no file.
fn answer(alloc: Global, asked: Asked, text: &str) -> Result<String, AllocError> {
    match parse_file(alloc, text.as_bytes()) {
        Ok(file) => table_text(alloc, &Table::of(alloc, file)?, asked),
        Err(fault) => format!(in alloc; "{fault:?}"),
    }
}

/// A sample with one text in place of another, which it holds.
fn edited(alloc: Global, sample: &str, old: &str, new: &str) -> Result<String, AllocError> {
    let (before, behind) = sample.split_once(old).unwrap_or((sample, ""));
    let mut text = String::from_str(alloc, before)?;
    text.push_str(new)?;
    text.push_str(behind)?;
    Ok(text)
}

/// Whether a text answers this.
pub(crate) fn answers(alloc: Global, asked: Asked, text: &str, want: &str) -> bool {
    match answer(alloc, asked, text) {
        Ok(found) => found.as_str() == want,
        Err(AllocError) => false,
    }
}

/// Whether a row `new => want` holds: what a sample answers with the new text in place of this old one.
pub(crate) fn holds_with(alloc: Global, asked: Asked, sample: &str, old: &str, row: &str) -> bool {
    let (new, want) = row.split_once(" => ").unwrap_or((row, ""));
    match edited(alloc, sample, old, new) {
        Ok(text) => answers(alloc, asked, text.as_str(), want),
        Err(AllocError) => false,
    }
}

/// Whether a row `old => new => want` holds: what a sample answers with the new text in place of the old one.
pub(crate) fn holds(alloc: Global, asked: Asked, sample: &str, row: &str) -> bool {
    let (old, change) = row.split_once(" => ").unwrap_or(("", row));
    holds_with(alloc, asked, sample, old, change)
}
