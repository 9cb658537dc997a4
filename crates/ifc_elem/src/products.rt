ghost use Rattle.std.specs.Prelude.{◌≡◌};
ghost use Rattle.spec_table.specs.Sections.{IsSimple};
ghost use Rattle.spec_entity.specs.Elements.{body_in, body_representation, representation};
ghost use Rattle.ifc_elem.specs.Views.{plain_representation};

use entity_reader::{instance_of_kinds, member_instance, members, refusal_of};
use ifc_kinds::Kind;
use spec_refusal::Refusal;
use spec_step::Param;
use step_table::Table;

/// A representation with its items, if its identifier is `Body`.
fn body_in<'t>(
    table: &'t Table<'_>,
    shape: u64,
    p: &Param,
) -> Result<Option<(u64, &'t [Param])>, Refusal>
    ensures { plain_representation result ≡ body_in table.now shape p.now }
{
    let representation = member_instance(table, shape, 3, p)?;
    let number = instance_of_kinds(table, &[Kind::ShapeRepresentation], representation)?;
    match table.attr_text(number, 2) {
        Ok(Some(text)) if text == b"Body".as_slice() => {
            Ok(Some((number, members(table, number, 4)?)))
        }
        Ok(_) => Ok(None),
        Err(fault) => Err(refusal_of(fault)),
    }
}

/// The first representation whose identifier is `Body`, with its items.
fn body_representation<'t>(
    table: &'t Table<'_>,
    shape: u64,
    representations: &[Param],
) -> Result<Option<(u64, &'t [Param])>, Refusal>
    ensures { plain_representation result ≡ body_representation table.now shape representations.now }
{
    for p in representations {
        if let Some(found) = body_in(table, shape, p)? {
            return Ok(Some(found));
        }
    }
    Ok(None)
}

/// The representation of a product that is read, with its items, if it has one.
pub fn representation<'t>(
    table: &'t Table<'_>,
    product: u64,
) -> Result<Option<(u64, &'t [Param])>, Refusal>
    requires { IsSimple table.now product }
    ensures { plain_representation result ≡ representation table.now product }
{
    match table.attr_ref(product, 7) {
        Ok(Some(number)) => {
            let shape = instance_of_kinds(table, &[Kind::ProductDefinitionShape], number)?;
            body_representation(table, shape, members(table, shape, 3)?)
        }
        Ok(None) => Ok(None),
        Err(fault) => Err(refusal_of(fault)),
    }
}
