ghost use Rattle.std.specs.Prelude.{◌≡◌, ◌≤◌, ◌≤ℤ◌, ◌^◌, pos, unsigned_abs, IfOk};
ghost use Rattle.spec_num.specs.Decimals.{most_units};
ghost use Rattle.spec_table.specs.Sections.{IsSimple};
ghost use Rattle.spec_table.specs.Attributes.{attr_ref, attr_enum};
ghost use Rattle.spec_place.specs.Lengths.{length_of};
ghost use Rattle.spec_refusal.specs.declared.Refusal.TheVariants.{NumberTooLarge};
ghost use Rattle.spec_entity.specs.Reads.{as_read, wanted_value, wanted_number};
ghost use Rattle.spec_geometry.specs.Files.{found, length, positive, zero, number_if_set, boolean};
ghost use Rattle.entity_reader.specs.Lent.{plain_read};
ghost use Rattle.ifc_numbers.specs.Measures.{file_of, IsExtent};

use crate::measures::GeomIn;
use entity_reader::refusal_of;
use ix_place::LengthUnit;
use spec_refusal::Refusal;
use spec_step::Param;
use step_table::Table;

/// A length of an instance in nanometres, from a decimal in units of 10^-12.
#[tactic(auto, using(crate::proofs::Lengths::length_above))]
fn length_within(g: &GeomIn, at: u64, units: i128) -> Result<i128, Refusal>
    requires { unsigned_abs units ≤ most_units }
    ensures value { result ≡ found (NumberTooLarge at) (length_of g.now.unit units) }
    ensures within { IfOk result (λ length. unsigned_abs length ≤ 10 ^ 16) }
    ensures above { pos 0 ≤ℤ units → IfOk result (λ length. pos 0 ≤ℤ length) }
{
    let LengthUnit { nano } = g.unit;
    match (LengthUnit { nano }).length(units) {
        Some(length) => Ok(length as i128),
        None => Err(Refusal::NumberTooLarge { at }),
    }
}

/// A length that is a member of a list, in nanometres.
pub fn length(
    table: &Table<'_>,
    g: &GeomIn,
    at: u64,
    position: usize,
    p: &Param,
) -> Result<i128, Refusal>
    ensures value { result ≡ length (file_of table.now g.now) at position p.now }
    ensures within { IfOk result (λ length. unsigned_abs length ≤ 10 ^ 16) }
{
    match table.param_real(at, position, p) {
        Ok(units) => length_within(g, at, units),
        Err(fault) => Err(refusal_of(fault)),
    }
}

/// A wanted length above 0, in nanometres; it may round to 0.
pub fn positive(table: &Table<'_>, g: &GeomIn, at: u64, position: usize) -> Result<i128, Refusal>
    requires simple { IsSimple table.now at }
    requires counted { 1 ≤ position }
    ensures value { result ≡ positive (file_of table.now g.now) at position }
    ensures extent { IfOk result IsExtent }
{
    match table.attr_real(at, position) {
        Ok(Some(units)) if units > 0 => length_within(g, at, units),
        Ok(_) => Err(Refusal::BadAttribute { at, position }),
        Err(fault) => Err(refusal_of(fault)),
    }
}

/// That a radius or a slope is unset or 0.
pub fn zero(table: &Table<'_>, at: u64, position: usize) -> Result<(), Refusal>
    requires simple { IsSimple table.now at }
    requires counted { 1 ≤ position }
    ensures { result ≡ zero table.now at position }
{
    match table.attr_real(at, position) {
        Ok(None | Some(0)) => Ok(()),
        Ok(_) => Err(Refusal::Curved { at }),
        Err(fault) => Err(refusal_of(fault)),
    }
}

/// A number in units of 10^-12, if it is set.
pub fn number_if_set(table: &Table<'_>, at: u64, position: usize) -> Result<Option<i128>, Refusal>
    requires simple { IsSimple table.now at }
    requires counted { 1 ≤ position }
    ensures { result ≡ number_if_set table.now at position }
{
    match table.attr_real(at, position) {
        Ok(number) => Ok(number),
        Err(fault) => Err(refusal_of(fault)),
    }
}

/// A wanted number in units of 10^-12.
pub fn wanted_number(table: &Table<'_>, at: u64, position: usize) -> Result<i128, Refusal>
    requires simple { IsSimple table.now at }
    requires counted { 1 ≤ position }
    ensures value { result ≡ wanted_number table.now at position }
    ensures within { IfOk result (λ units. unsigned_abs units ≤ most_units) }
{
    match table.attr_real(at, position) {
        Ok(Some(units)) => Ok(units),
        Ok(None) => Err(Refusal::BadAttribute { at, position }),
        Err(fault) => Err(refusal_of(fault)),
    }
}

/// A wanted enumeration: the letters between its points.
pub fn wanted_enumeration<'t>(
    table: &'t Table<'_>,
    at: u64,
    position: usize,
) -> Result<&'t [u8], Refusal>
    requires simple { IsSimple table.now at }
    requires counted { 1 ≤ position }
    ensures { plain_read result ≡ wanted_value at position (attr_enum table.now at position) }
{
    match table.attr_enum(at, position) {
        Ok(Some(text)) => Ok(text),
        Ok(None) => Err(Refusal::BadAttribute { at, position }),
        Err(fault) => Err(refusal_of(fault)),
    }
}

/// A wanted boolean: the enumeration T or F, in letters of any case.
pub fn boolean(table: &Table<'_>, at: u64, position: usize) -> Result<bool, Refusal>
    requires simple { IsSimple table.now at }
    requires counted { 1 ≤ position }
    ensures { result ≡ boolean table.now at position }
{
    let text = wanted_enumeration(table, at, position)?;
    if text.eq_ignore_ascii_case(b"T") {
        return Ok(true);
    }
    if text.eq_ignore_ascii_case(b"F") {
        return Ok(false);
    }
    Err(Refusal::BadAttribute { at, position })
}

/// The instance that an attribute names, if it is set.
pub fn reference_if_set(table: &Table<'_>, at: u64, position: usize) -> Result<Option<u64>, Refusal>
    requires simple { IsSimple table.now at }
    requires counted { 1 ≤ position }
    ensures { result ≡ as_read (attr_ref table.now at position) }
{
    match table.attr_ref(at, position) {
        Ok(number) => Ok(number),
        Err(fault) => Err(refusal_of(fault)),
    }
}
