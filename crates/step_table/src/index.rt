ghost use Rattle.std.specs.Prelude.{◌≡◌, ◌==◌, ℕ, Some, None, if◌then◌else◌, IfOk, OnOk};
ghost use Rattle.std.specs.Option.{option_or};
ghost use Rattle.std.specs.BTreeMap.{get};
ghost use Rattle.std.specs.Ordering.{nat_cmp};
ghost use Rattle.step_table.specs.Places.{first_place};

use spec_step::Instance;
use std::alloc::{AllocError, Global};
use std::collections::BTreeMap;

/// Gives a number its place, if it has none.
fn note(places: &mut BTreeMap<u64, usize>, number: u64, place: usize) -> Result<(), AllocError>
    ensures { OnOk result ((n : ℕ) → get nat_cmp places.new n
        ≡ option_or (get nat_cmp places.old n) (if number == n then Some place else None)) }
{
    if places.get(&number).is_none() {
        places.insert(number, place)?;
    }
    Ok(())
}

/// The places of instances by their numbers, counted from 0; of several instances with one number
/// the place of the first.
pub fn places_of(alloc: Global, instances: &[Instance]) -> Result<BTreeMap<u64, usize>, AllocError>
    ensures { IfOk result (λ places. (n : ℕ) → get nat_cmp places n ≡ first_place instances.now n) }
{
    let mut places = BTreeMap::new(alloc);
    for (place, instance) in instances.iter().enumerate() {
        note(&mut places, instance.number, place)?;
    }
    Ok(places)
}
