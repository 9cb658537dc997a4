ghost use Rattle.std.specs.Prelude.{◌≡◌, ℕ, ◌++◌, ◌∷◌, [], ◌==◌, filter, map, OnOk, IfOk, if◌then◌else◌};
ghost use Rattle.std.specs.BTreeMap.{get};
ghost use Rattle.std.specs.Ordering.{nat_cmp};
ghost use Rattle.spec_entity.specs.Elements.{voids};
ghost use Rattle.ifc_elem.specs.Voiding.{listed, is_number, relations_of, IsIndexOf};

use entity_reader::has_kind;
use ifc_kinds::Kind;
use spec_step::Instance;
use std::alloc::{AllocError, Global};
use std::collections::BTreeMap;
use step_table::Table;

/// The relations of a file that void an element (IfcRelVoidsElement), by its number.
#[derive(Drop)]
pub struct Openings {
    relations: BTreeMap<u64, Vec<u64>>,
}

/// The element that an instance voids, if it is a relation that voids one.
fn voided(table: &Table<'_>, number: u64) -> Option<u64>
    ensures { (n : ℕ) → voids table.now n number ≡ is_number n result }
{
    if !has_kind(table, number, Kind::RelVoidsElement) {
        return None;
    }
    match table.attr_ref(number, 5) {
        Ok(element) => element,
        Err(_) => None,
    }
}

/// Puts a relation behind those of its element.
fn note(
    alloc: Global,
    relations: &mut BTreeMap<u64, Vec<u64>>,
    element: u64,
    relation: u64,
) -> Result<(), AllocError>
    ensures { OnOk result ((n : ℕ) → listed (get nat_cmp relations.new n) ≡ listed (get nat_cmp relations.old n) ++ (if element == n then relation ∷ [] else [])) }
{
    let mut found = relations.remove(&element).unwrap_or(Vec::new(alloc));
    found.push(relation)?;
    relations.insert(element, found)?;
    Ok(())
}

/// The relations among some instances, by the numbers of their elements.
fn listed_among(
    alloc: Global,
    table: &Table<'_>,
    instances: &[Instance],
) -> Result<BTreeMap<u64, Vec<u64>>, AllocError>
    ensures { IfOk result (λ relations. (n : ℕ) → listed (get nat_cmp relations n) ≡ filter (voids table.now n) (map (λ i. i.number) instances.now)) }
{
    let mut relations = BTreeMap::new(alloc);
    for instance in instances {
        if let Some(element) = voided(table, instance.number) {
            note(alloc, &mut relations, element, instance.number)?;
        }
    }
    Ok(relations)
}

impl Openings {
    /// The relations of a file, in one pass over its instances.
    ///
    /// # Errors
    ///
    /// Want of memory.
    pub fn of(alloc: Global, table: &Table<'_>) -> Result<Openings, AllocError>
        ensures { IfOk result (λ openings. IsIndexOf openings table.now) }
    {
        let relations = listed_among(alloc, table, table.instances())?;
        Ok(Openings { relations })
    }

    /// The relations that void an element, in file order.
    pub fn of_element(&self, element: u64) -> &[u64]
        ensures { result.now ≡ relations_of self.now element }
    {
        match self.relations.get(&element) {
            Some(found) => found.as_slice(),
            None => &[],
        }
    }
}
