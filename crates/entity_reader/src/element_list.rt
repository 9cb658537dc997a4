ghost use Rattle.std.specs.Prelude.{◌≡◌, true, All, IfOk, filter, map};
ghost use Rattle.spec_table.specs.Sections.{IsSimple};
ghost use Rattle.spec_entity.specs.Reads.{has_kind, is_one_of};
ghost use Rattle.spec_entity.specs.Elements.{has_element_kind, elements};

use crate::kinds::{has_kind, is_one_of};
use ifc_kinds::{Kind, element_kinds};
use spec_step::Instance;
use std::alloc::{AllocError, Global};
use step_table::Table;

/// Whether the instance is a building element.
fn has_element_kind(table: &Table<'_>, number: u64) -> bool
    ensures { result ≡ has_element_kind table.now number }
{
    is_one_of(table, element_kinds(), number)
}

/// The numbers of those of the instances that are building elements.
fn numbers_among(
    alloc: Global,
    table: &Table<'_>,
    instances: &[Instance],
) -> Result<Vec<u64>, AllocError>
    ensures { IfOk result (λ numbers. numbers.items ≡ filter (has_element_kind table.now) (map (λ i. i.number) instances.now)) }
{
    let mut numbers = Vec::new(alloc);
    for instance in instances {
        if has_element_kind(table, instance.number) {
            numbers.push(instance.number)?;
        }
    }
    Ok(numbers)
}

/// The numbers of the building elements.
fn element_numbers(alloc: Global, table: &Table<'_>) -> Result<Vec<u64>, AllocError>
    ensures { IfOk result (λ numbers. numbers.items ≡ elements table.now) }
{
    numbers_among(alloc, table, table.instances())
}

/// The numbers of the building elements of a file, in file order; each names an instance with one entry. The error is want
/// of memory.
pub fn elements(alloc: Global, table: &Table<'_>) -> Result<Vec<u64>, AllocError>
    ensures value { IfOk result (λ numbers. numbers.items ≡ elements table.now) }
    ensures simple { IfOk result (λ numbers. All (IsSimple table.now) numbers.items) }
    ensures kinds { IfOk result (λ numbers. All (λ n. has_element_kind table.now n ≡ true) numbers.items) }
{
    element_numbers(alloc, table)
}

/// The kind of a building element.
pub fn element_kind(table: &Table<'_>, number: u64) -> Kind
    requires { has_element_kind table.now number ≡ true }
    ensures { has_kind table.now number result ≡ true }
{
    let kinds = element_kinds();
    for kind in kinds {
        if has_kind(table, number, *kind) {
            return *kind;
        }
    }
    unreachable!()
}
