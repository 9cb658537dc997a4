ghost use Rattle.std.specs.Prelude.{◌≡◌, true, ◌≤◌, ◌<◌, ◌^◌, List, [], ◌∷◌, ◌++◌, IfOk, OnOk};
ghost use Rattle.spec_table.specs.Sections.{IsSimple};
ghost use Rattle.spec_entity.specs.Elements.{has_element_kind};
ghost use Rattle.spec_shape.specs.Shapes.{element_count};
ghost use Rattle.spec_page.specs.Page.{item_lines};
ghost use Rattle.spec_grid.specs.Rounded.{round_element};
ghost use Rattle.spec_outcome.specs.Outcomes.{IsItemOf, StandsFor, rounded_outcome};
ghost use Rattle.solid_expr.specs.Views.{element_of};
ghost use Rattle.ifc_numbers.specs.Measures.{file_of};
ghost use Rattle.ifc_elem.specs.Voiding.{IsIndexOf};
ghost use Rattle.world_print.specs.Ranges.{IsStep};
ghost use Rattle.world_print.specs.Elements.{Mesh};
ghost use Rattle.spec_meshes.specs.Meshes.{AreMeshesOf};
ghost use Rattle.ix_page.specs.Made.{item_of, meshes_of, IsMeshAs};

use element_mesh::element_mesh;
use entity_reader::element_kind;
use grid_round::{RoundFault, round_solid};
use ifc_elem::{Openings, element_body};
use ifc_kinds::Kind;
use ifc_numbers::{GeomIn, ItemFault};
use mesh_out::MeshWriter;
use obj_text::{write_element, write_refused, write_skipped};
use solid_expr::ElementSolid;
use spec_refusal::Refusal;
use std::alloc::{AllocError, Global};
use step_table::Table;
use world_print::ElementMesh;

/// What became of an element.
#[derive(Drop)]
pub enum Made {
    /// It has no body that is read.
    Nothing,
    /// It is refused.
    Refusal(Refusal),
    /// It was converted.
    Mesh(ElementMesh),
}

/// What becomes of an element of a kind that was read: it is rounded to the grid of a step in micrometres, and its mesh is
/// made. The error is want of memory.
fn made_of(alloc: Global, element: &ElementSolid, kind: Kind, step: u32) -> Result<Made, AllocError>
    requires step { IsStep step }
    requires few { element_count (element_of element.now) ≤ 4096 }
    ensures item { IfOk result (λ made. StandsFor step element.now.number
        (rounded_outcome element.now.frame (round_element step (element_of element.now)))
        (item_of element.now.number made)) }
    ensures mesh { IfOk result (IsMeshAs element.now.number kind step) }
{
    match round_solid(alloc, element, step) {
        Ok(solid) => {
            let mesh = element_mesh(alloc, &solid, element.number, kind, element.frame, step)?;
            Ok(Made::Mesh(mesh))
        }
        Err(RoundFault::Refused(refusal)) => Ok(Made::Refusal(refusal)),
        Err(RoundFault::NoMemory) => Err(AllocError),
    }
}

/// What becomes of the element of a number. The error is want of memory.
pub fn made_element(
    alloc: Global,
    table: &Table<'_>,
    g: &GeomIn,
    openings: &Openings,
    number: u64,
) -> Result<Made, AllocError>
    requires simple { IsSimple table.now number }
    requires kind { has_element_kind table.now number ≡ true }
    requires openings { IsIndexOf openings.now table.now }
    ensures item { IfOk result (λ made. IsItemOf (file_of table.now g.now) number (item_of number made)) }
    ensures mesh { IfOk result (λ made. AreMeshesOf (file_of table.now g.now) (item_of number made ∷ []) (meshes_of made)) }
{
    match element_body(alloc, table, g, openings, number) {
        Ok(Some(element)) => made_of(alloc, &element, element_kind(table, number), g.step),
        Ok(None) => Ok(Made::Nothing),
        Err(ItemFault::Refused(refusal)) => Ok(Made::Refusal(refusal)),
        Err(ItemFault::NoMemory) => Err(AllocError),
    }
}

/// Gives a writer the mesh of an element, where it was converted.
pub fn take_mesh(writer: &mut dyn MeshWriter, made: &Made) -> Result<(), AllocError>
    ensures taken { OnOk result ((view writer.new).taken ≡ (view writer.old).taken ++ meshes_of made.now) }
    ensures texts { (list : List Mesh) → (view writer.new).text_for list ≡ (view writer.old).text_for list }
{
    match made {
        Made::Mesh(mesh) => writer.take(mesh),
        Made::Nothing => Ok(()),
        Made::Refusal(_) => Ok(()),
    }
}

/// Appends the lines of an element, where so many corners stand before it on the page.
pub fn put_item(
    page: &mut Vec<u8>,
    number: u64,
    made: &Made,
    before: u128,
) -> Result<(), AllocError>
    requires { before < 2 ^ 127 }
    ensures { OnOk result (page.new.items ≡ page.old.items ++ item_lines before (item_of number made.now)) }
{
    match made {
        Made::Nothing => write_skipped(page, number),
        Made::Refusal(refusal) => write_refused(page, number, refusal),
        Made::Mesh(mesh) => write_element(page, mesh, before),
    }
}
