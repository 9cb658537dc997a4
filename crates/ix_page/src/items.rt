ghost use Rattle.std.specs.Prelude.{◌≡◌, true, ◌<◌, ◌≤◌, ◌^◌, ◌++◌, [], List, All, OnOk, IfOk, filter, length, nat_eq};
ghost use Rattle.spec_table.specs.Sections.{IsSimple};
ghost use Rattle.spec_entity.specs.Elements.{has_element_kind, elements};
ghost use Rattle.spec_page.specs.Items.{Item};
ghost use Rattle.spec_page.specs.Page.{page_text};
ghost use Rattle.world_print.specs.Elements.{Mesh};
ghost use Rattle.spec_outcome.specs.Outcomes.{AreItemsOf, wanted_of};
ghost use Rattle.ifc_numbers.specs.Measures.{file_of};
ghost use Rattle.ifc_elem.specs.Voiding.{IsIndexOf};
ghost use Rattle.ix_page.specs.Counts.{IsTallyOf, AddsElement, HasElements, TakesElement, HasTaken, IsElement};

use crate::element::{made_element, put_item, take_mesh};
use crate::tally::Tally;
use entity_reader::elements;
use ifc_elem::Openings;
use ifc_numbers::GeomIn;
use mesh_out::MeshWriter;
use obj_text::{write_end, write_head};
use std::alloc::{AllocError, Global};
use step_table::Table;

/// Appends the lines of the element of a number, and counts it.
fn put_element(
    alloc: Global,
    table: &Table<'_>,
    g: &GeomIn,
    openings: &Openings,
    number: u64,
    page: &mut Vec<u8>,
    tally: &mut Tally,
) -> Result<(), AllocError>
    requires element { IsElement table.now number }
    requires openings { IsIndexOf openings.now table.now }
    requires room { tally.old.elements < 2 ^ 60 }
    ensures { OnOk result (AddsElement (file_of table.now g.now) number page.old.items page.new.items tally.old tally.new) }
{
    let made = made_element(alloc, table, g, openings, number)?;
    put_item(page, number, &made, tally.corners)?;
    tally.count(number, &made)
}

/// Appends the lines of elements in order, and counts them.
fn put_elements(
    alloc: Global,
    table: &Table<'_>,
    g: &GeomIn,
    openings: &Openings,
    numbers: &[u64],
    page: &mut Vec<u8>,
) -> Result<Tally, AllocError>
    requires elements { All (IsElement table.now) numbers.now }
    requires openings { IsIndexOf openings.now table.now }
    ensures { IfOk result (HasElements (file_of table.now g.now) numbers.now page.old.items page.new.items) }
{
    let mut tally = Tally::new(alloc);
    for number in numbers {
        put_element(alloc, table, g, openings, *number, page, &mut tally)?;
    }
    Ok(tally)
}

/// Gives a writer the mesh of the element of a number, where it is converted, and counts the element.
fn take_element(
    alloc: Global,
    table: &Table<'_>,
    g: &GeomIn,
    openings: &Openings,
    number: u64,
    writer: &mut dyn MeshWriter,
    tally: &mut Tally,
) -> Result<(), AllocError>
    requires element { IsElement table.now number }
    requires openings { IsIndexOf openings.now table.now }
    requires room { tally.old.elements < 2 ^ 60 }
    ensures taken { OnOk result (TakesElement (file_of table.now g.now) number (view writer.old).taken (view writer.new).taken tally.old tally.new) }
    ensures texts { (list : List Mesh) → (view writer.new).text_for list ≡ (view writer.old).text_for list }
{
    let made = made_element(alloc, table, g, openings, number)?;
    take_mesh(writer, &made)?;
    tally.count(number, &made)
}

/// Gives a writer the meshes of those elements, in order, that are converted, and counts the elements.
fn take_elements(
    alloc: Global,
    table: &Table<'_>,
    g: &GeomIn,
    openings: &Openings,
    numbers: &[u64],
    writer: &mut dyn MeshWriter,
) -> Result<Tally, AllocError>
    requires elements { All (IsElement table.now) numbers.now }
    requires openings { IsIndexOf openings.now table.now }
    ensures taken { IfOk result (HasTaken (file_of table.now g.now) numbers.now (view writer.old).taken (view writer.new).taken) }
    ensures texts { (list : List Mesh) → (view writer.new).text_for list ≡ (view writer.old).text_for list }
{
    let mut tally = Tally::new(alloc);
    for number in numbers {
        take_element(alloc, table, g, openings, *number, writer, &mut tally)?;
    }
    Ok(tally)
}

/// Those of the numbers that are this one.
fn only_among(alloc: Global, numbers: &[u64], only: u64) -> Result<Vec<u64>, AllocError>
    ensures { IfOk result (λ kept. kept.items ≡ filter (λ n. nat_eq n only) numbers.now) }
{
    let mut kept = Vec::new(alloc);
    for number in numbers {
        if *number == only {
            kept.push(*number)?;
        }
    }
    Ok(kept)
}

/// The numbers of the wanted elements of a file, in file order. The error is want of memory.
fn wanted(alloc: Global, table: &Table<'_>, only: Option<u64>) -> Result<Vec<u64>, AllocError>
    ensures value { IfOk result (λ numbers. numbers.items ≡ wanted_of only (elements table.now)) }
    ensures elements { IfOk result (λ numbers. All (IsElement table.now) numbers.items) }
{
    let numbers = elements(alloc, table)?;
    match only {
        Some(only) => only_among(alloc, &numbers, only),
        None => Ok(numbers),
    }
}

/// Appends the page of a file: one item for each element, in the order of the file, on the grid of a step; or the item of the
/// one element of a number, if it stands in the file. Each element is made and given back before the next is read. Answers
/// what it counts.
///
/// # Errors
///
/// Want of memory; then part of the page may stand.
pub fn write_page(
    alloc: Global,
    table: &Table<'_>,
    g: &GeomIn,
    only: Option<u64>,
    page: &mut Vec<u8>,
) -> Result<Tally, AllocError>
    requires { page.old.items ≡ [] }
    ensures { IfOk result (λ tally. (items : List Item) × AreItemsOf (file_of table.now g.now) (wanted_of only (elements table.now)) items
        × (page.new.items ≡ page_text g.now.grid items) × IsTallyOf tally items) }
{
    let numbers = wanted(alloc, table, only)?;
    let openings = Openings::of(alloc, table)?;
    write_head(page, g.step)?;
    let tally = put_elements(alloc, table, g, &openings, &numbers, page)?;
    write_end(page)?;
    Ok(tally)
}

/// Gives a writer the meshes of the converted elements of a file, in the order of the file, on the grid of a step; or the mesh
/// of the one element of a number. Each element is made and given back before the next is read. Answers what it counts: all
/// elements, those among them that are refused or have no body, and the corners and faces of the meshes.
///
/// # Errors
///
/// Want of memory; then the writer may have taken some of the meshes.
pub fn take_meshes(
    alloc: Global,
    table: &Table<'_>,
    g: &GeomIn,
    only: Option<u64>,
    writer: &mut dyn MeshWriter,
) -> Result<Tally, AllocError>
    ensures taken { IfOk result (HasTaken (file_of table.now g.now) (wanted_of only (elements table.now)) (view writer.old).taken (view writer.new).taken) }
    ensures texts { (list : List Mesh) → (view writer.new).text_for list ≡ (view writer.old).text_for list }
{
    let numbers = wanted(alloc, table, only)?;
    let openings = Openings::of(alloc, table)?;
    take_elements(alloc, table, g, &openings, &numbers, writer)
}
