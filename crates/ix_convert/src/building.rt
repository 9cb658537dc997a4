ghost use Rattle.std.specs.Prelude.{◌≡◌, [], IfOk};
ghost use Rattle.std.specs.Option.{option_map};
ghost use Rattle.spec_entity.specs.Elements.{elements};
ghost use Rattle.spec_outcome.specs.Outcomes.{wanted_of};
ghost use Rattle.spec_run.specs.Tasks.Converting.{TextOf};
ghost use Rattle.ifc_numbers.specs.Measures.{file_of};
ghost use Rattle.ix_convert.specs.Conversions.{IsBuilt, format_by};

use ifc_numbers::GeomIn;
use ix_page::{Tally, take_meshes, write_page};
use mesh_out::MeshWriter;
use std::alloc::{AllocError, Global};
use step_table::Table;

/// Which elements of a file are wanted, and on what grid.
#[derive(Clone, Copy)]
pub(crate) struct Wanted {
    /// The grid in micrometres.
    pub(crate) grid: u32,
    /// The number of the one element that is wanted; `None` where all are.
    pub(crate) only: Option<u64>,
}

/// Gives a writer the meshes of a file's elements, and appends its text.
fn take_text(
    alloc: Global,
    table: &Table<'_>,
    g: &GeomIn,
    only: Option<u64>,
    writer: &mut dyn MeshWriter,
    page: &mut Vec<u8>,
) -> Result<Tally, AllocError>
    requires { page.old.items ≡ [] }
    ensures { IfOk result (IsBuilt (TextOf (view writer.old)) (file_of table.now g.now) (wanted_of only (elements table.now)) page.new.items) }
{
    let tally = take_meshes(alloc, table, g, only, writer)?;
    page.extend_from_slice(writer.text())?;
    Ok(tally)
}

/// Builds the text of a writer that takes the meshes of a file's elements.
fn build_text(
    alloc: Global,
    table: &Table<'_>,
    g: &GeomIn,
    only: Option<u64>,
    writer: Box<dyn MeshWriter>,
    page: &mut Vec<u8>,
) -> Result<Tally, AllocError>
    requires { page.old.items ≡ [] }
    ensures { IfOk result (IsBuilt (TextOf (view writer)) (file_of table.now g.now) (wanted_of only (elements table.now)) page.new.items) }
{
    let mut writer = writer;
    take_text(alloc, table, g, only, &mut *writer, page)
}

/// Builds the page of a file's elements: OBJ text, or the text of a writer. The error is want of memory.
pub(crate) fn build_page(
    alloc: Global,
    table: &Table<'_>,
    g: &GeomIn,
    only: Option<u64>,
    form: Option<Box<dyn MeshWriter>>,
    page: &mut Vec<u8>,
) -> Result<Tally, AllocError>
    requires { page.old.items ≡ [] }
    ensures { IfOk result (IsBuilt (format_by (option_map view form)) (file_of table.now g.now) (wanted_of only (elements table.now)) page.new.items) }
{
    match form {
        None => write_page(alloc, table, g, only, page),
        Some(writer) => build_text(alloc, table, g, only, writer, page),
    }
}
