ghost use Rattle.std.specs.Prelude.{◌≡◌, Some, All, IfOk};
ghost use Rattle.spec_table.specs.Sections.{IsSimple};
ghost use Rattle.spec_table.specs.Attributes.{attr_ref};
ghost use Rattle.spec_refusal.specs.Reads.{next};
ghost use Rattle.spec_entity.specs.Reads.{as_read, each};
ghost use Rattle.spec_geometry.specs.Files.{placed};
ghost use Rattle.spec_geometry.specs.Axes.{named_axes};
ghost use Rattle.spec_geometry.specs.Placements.{placements_to, most_links, link, chain, world_frame, opening_frame};
ghost use Rattle.ifc_numbers.specs.Measures.{file_of};
ghost use Rattle.ifc_numbers.specs.Answers.{ReadsList, WantsMemoryOnlyFor};
ghost use Rattle.ifc_axes.specs.Turned.{ReadsTurned, placement_read};

use crate::frames::named_axes;
use entity_reader::instance_of_kinds;
use ifc_kinds::Kind;
use ifc_numbers::{GeomIn, ItemFault, reference_if_set, refusal_at};
use ix_place::Frame;
use spec_refusal::Refusal;
use std::alloc::{AllocError, Global};
use step_table::Table;

/// The placement of a number, and the number of the one to which it is relative, if that is set.
fn placement_at(table: &Table<'_>, number: u64) -> Result<(u64, Option<u64>), Refusal>
    ensures value { result ≡ placement_read table.now number }
    ensures simple { IfOk result (λ read. IsSimple table.now read.0) }
{
    let placement = instance_of_kinds(table, &[Kind::LocalPlacement], number)?;
    let parent = reference_if_set(table, placement, 1)?;
    Ok((placement, parent))
}

/// The placements from one to the root.
fn placements_from(alloc: Global, table: &Table<'_>, first: u64) -> Result<Vec<u64>, ItemFault>
    ensures value { ReadsTurned result (placements_to most_links table.now (Some first)) }
    ensures simple { IfOk result (λ found. All (IsSimple table.now) found.items) }
{
    let mut found = Vec::new(alloc);
    let mut parent = Some(first);
    while let Some(number) = parent {
        if found.len() == 64 {
            return Err(ItemFault::Refused(Refusal::TooDeep { at: number }));
        }
        let read = match placement_at(table, number) {
            Ok(read) => read,
            Err(refusal) => return Err(ItemFault::Refused(refusal)),
        };
        match found.push(read.0) {
            Ok(()) => {}
            Err(error) => return Err(AllocError::from(error).into()),
        }
        parent = read.1;
    }
    Ok(found)
}

/// Placements with their own frames.
fn links(
    alloc: Global,
    table: &Table<'_>,
    g: &GeomIn,
    numbers: &[u64],
) -> Result<Vec<(u64, Frame)>, ItemFault>
    requires { All (IsSimple table.now) numbers.now }
    ensures { ReadsList result (each (link (file_of table.now g.now)) numbers.now) }
{
    let mut links = Vec::new(alloc);
    for number in numbers {
        let frame = named_axes(table, g, *number, 2)?;
        match links.push((*number, frame)) {
            Ok(()) => {}
            Err(error) => return Err(AllocError::from(error).into()),
        }
    }
    Ok(links)
}

/// The chain of the placements from one to the root, from the root.
fn chain_from(
    alloc: Global,
    table: &Table<'_>,
    g: &GeomIn,
    first: u64,
) -> Result<Vec<(u64, Frame)>, ItemFault>
    ensures { ReadsList result (next (placements_to most_links table.now (Some first)) (each (link (file_of table.now g.now)))) }
{
    let mut numbers = placements_from(alloc, table, first)?;
    numbers.reverse();
    links(alloc, table, g, &numbers)
}

/// The chain of a product's placements (IfcLocalPlacement) from the root, each with the frame of its own RelativePlacement; at
/// most 64. That of a product without a placement is empty.
///
/// # Errors
///
/// The first refusal in the order of reading: the placements from the product to the root, then their axes from the root on.
/// Or `NoMemory`, which a product without a placement never wants.
pub fn read_chain(
    alloc: Global,
    table: &Table<'_>,
    g: &GeomIn,
    product: u64,
) -> Result<Vec<(u64, Frame)>, ItemFault>
    requires { IsSimple table.now product }
    ensures value { ReadsList result (chain (file_of table.now g.now) product) }
    ensures memory { WantsMemoryOnlyFor result (as_read (attr_ref table.now product 6)) }
{
    match reference_if_set(table, product, 6)? {
        Some(first) => chain_from(alloc, table, g, first),
        None => Ok(Vec::new(alloc)),
    }
}

/// The frame of a chain in the world; a refusal names the placement that is being added.
pub fn world_frame(chain: &[(u64, Frame)]) -> Result<Frame, Refusal>
    ensures { result ≡ world_frame chain.now }
{
    let [first, rest @ ..] = chain else {
        return Ok(Frame::identity());
    };
    let mut frame = first.1;
    for link in rest {
        frame = frame
            .then(&link.1)
            .map_err(|fault| refusal_at(link.0, fault))?;
    }
    Ok(frame)
}

/// The frame of an opening's chain as seen from that of its element; a refusal names the opening.
pub fn opening_frame(
    opening: u64,
    element: &[(u64, Frame)],
    own: &[(u64, Frame)],
) -> Result<Frame, Refusal>
    ensures { result ≡ opening_frame opening element.now own.now }
{
    Frame::relative_of_chains(element, own).map_err(|fault| refusal_at(opening, fault))
}
