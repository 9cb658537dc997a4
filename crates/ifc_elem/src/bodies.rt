ghost use Rattle.std.specs.Prelude.{◌≡◌, ◌≤◌, All, Some, Ok, IfOk, IfSome};
ghost use Rattle.spec_table.specs.Sections.{IsSimple};
ghost use Rattle.spec_refusal.specs.Reads.{next};
ghost use Rattle.spec_shape.specs.Shapes.{ElementShape, element_count};
ghost use Rattle.spec_entity.specs.Reads.{named_instance};
ghost use Rattle.spec_entity.specs.Elements.{representation};
ghost use Rattle.spec_geometry.specs.Elements.{items, opening_kinds, opening_items, openings, shape_of_body, element_body};
ghost use Rattle.solid_expr.specs.Views.{element_of};
ghost use Rattle.ifc_numbers.specs.Measures.{file_of};
ghost use Rattle.ifc_numbers.specs.Answers.{WantsMemoryOnlyFor};
ghost use Rattle.ifc_elem.specs.Views.{ReadsItems, ReadsBody};
ghost use Rattle.ifc_elem.specs.Voiding.{IsIndexOf};

use crate::openings::Openings;
use crate::products::representation;
use entity_reader::{member_instance, named_instance};
use ifc_geom::{GeomIn, ItemFault, opening_frame, read_chain, read_solid, world_frame};
use ifc_kinds::Kind;
use ix_place::{Frame, Map};
use solid_expr::{ElementSolid, Item};
use spec_step::Param;
use std::alloc::{AllocError, Global};
use step_table::Table;

/// The items of a representation under a map, and the count with them.
fn items(
    alloc: Global,
    table: &Table<'_>,
    g: &GeomIn,
    at: u64,
    members: &[Param],
    map: &Map,
    count: u128,
) -> Result<(Vec<Item>, u128), ItemFault>
    requires { count ≤ 4096 }
    ensures value { ReadsItems result (items (file_of table.now g.now) (at, members.now) map.now count) }
    ensures few { IfOk result (λ read. read.1 ≤ 4096) }
{
    let mut reached = count;
    let mut items = Vec::new(alloc);
    for p in members {
        let number = member_instance(table, at, 4, p)?;
        let (solid, more) = read_solid(alloc, table, g, number, map, 1, reached)?;
        match items.push(Item { at: number, solid }) {
            Ok(()) => {}
            Err(error) => return Err(AllocError::from(error).into()),
        }
        reached = more;
    }
    Ok((items, reached))
}

/// The items of the opening of a relation in the frame of an element, by the chain of the element.
fn opening_items(
    alloc: Global,
    table: &Table<'_>,
    g: &GeomIn,
    element: &[(u64, Frame)],
    relation: u64,
    count: u128,
) -> Result<(Vec<Item>, u128), ItemFault>
    requires simple { IsSimple table.now relation }
    requires count { count ≤ 4096 }
    ensures value { ReadsItems result (opening_items (file_of table.now g.now) element.now relation count) }
    ensures few { IfOk result (λ read. read.1 ≤ 4096) }
    ensures memory { WantsMemoryOnlyFor result (next (named_instance table.now opening_kinds relation 6) (representation table.now)) }
{
    let kinds = [Kind::OpeningElement, Kind::OpeningStandardCase];
    let opening = named_instance(table, &kinds, relation, 6)?;
    match representation(table, opening)? {
        Some((at, members)) => {
            let own = read_chain(alloc, table, g, opening)?;
            let frame = opening_frame(opening, element, &own)?;
            items(alloc, table, g, at, members, &Map::of_frame(&frame), count)
        }
        None => Ok((Vec::new(alloc), count)),
    }
}

/// The items of the openings of relations, one after the other.
fn opening_solids(
    alloc: Global,
    table: &Table<'_>,
    g: &GeomIn,
    element: &[(u64, Frame)],
    relations: &[u64],
    count: u128,
) -> Result<(Vec<Item>, u128), ItemFault>
    requires simple { All (IsSimple table.now) relations.now }
    requires count { count ≤ 4096 }
    ensures value { ReadsItems result (openings (file_of table.now g.now) element.now relations.now count) }
{
    let mut reached = count;
    let mut found = Vec::new(alloc);
    for relation in relations {
        let (mut own, more) = opening_items(alloc, table, g, element, *relation, reached)?;
        found.append(&mut own)?;
        reached = more;
    }
    Ok((found, reached))
}

/// The solids of an element that has a representation with these items, and of its openings.
fn body_of(
    alloc: Global,
    table: &Table<'_>,
    g: &GeomIn,
    openings: &Openings,
    number: u64,
    at: u64,
    members: &[Param],
) -> Result<Option<ElementSolid>, ItemFault>
    requires simple { IsSimple table.now number }
    requires openings { IsIndexOf openings.now table.now }
    ensures value { ReadsBody result (shape_of_body (file_of table.now g.now) number (Some (at, members.now))) }
    ensures number { IfOk result (λ body. IfSome body (λ element. element.number ≡ number)) }
{
    let chain = read_chain(alloc, table, g, number)?;
    let frame = world_frame(&chain)?;
    let map = Map::of_frame(&Frame::identity());
    let (items, reached) = items(alloc, table, g, at, members, &map, 0)?;
    let relations = openings.of_element(number);
    let (openings, _) = opening_solids(alloc, table, g, &chain, relations, reached)?;
    Ok(Some(ElementSolid {
        number,
        items,
        openings,
        frame,
    }))
}

/// The solids of an element and of its openings.
fn read_body(
    alloc: Global,
    table: &Table<'_>,
    g: &GeomIn,
    openings: &Openings,
    number: u64,
) -> Result<Option<ElementSolid>, ItemFault>
    requires simple { IsSimple table.now number }
    requires openings { IsIndexOf openings.now table.now }
    ensures value { ReadsBody result (element_body (file_of table.now g.now) number) }
    ensures number { IfOk result (λ body. IfSome body (λ element. element.number ≡ number)) }
    ensures memory { WantsMemoryOnlyFor result (representation table.now number) }
{
    match representation(table, number)? {
        Some((at, members)) => body_of(alloc, table, g, openings, number, at, members),
        None => Ok(None),
    }
}

/// The solids of an element and of its openings, in the element's frame, and where it stands; `None` exactly where it has no
/// representation that is read. They have at most 4096 triangles and half-spaces. `openings` is that of the file.
///
/// # Errors
///
/// The first refusal in the order of reading (the representation, the chain of placements and its frame, the items, then the
/// openings in file order, each with its representation, its chain and its items). `NoMemory` only for an element with a
/// representation that is read.
pub fn element_body(
    alloc: Global,
    table: &Table<'_>,
    g: &GeomIn,
    openings: &Openings,
    number: u64,
) -> Result<Option<ElementSolid>, ItemFault>
    requires simple { IsSimple table.now number }
    requires openings { IsIndexOf openings.now table.now }
    ensures value { ReadsBody result (element_body (file_of table.now g.now) number) }
    ensures law { (element : ElementShape) → element_body (file_of table.now g.now) number ≡ Ok (Some element) → element_count element ≤ 4096 }
    ensures few { IfOk result (λ body. IfSome body (λ element. element_count (element_of element) ≤ 4096)) }
    ensures number { IfOk result (λ body. IfSome body (λ element. element.number ≡ number)) }
    ensures memory { WantsMemoryOnlyFor result (representation table.now number) }
{
    read_body(alloc, table, g, openings, number)
}
