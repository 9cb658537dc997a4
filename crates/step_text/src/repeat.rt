ghost use Rattle.std.specs.Prelude.{IfOk, MatchOption};
ghost use Rattle.spec_step.specs.Files.{HasDistinctNumbers, RepeatsFirst};

use spec_step::Instance;
use std::alloc::{AllocError, Global};
use std::collections::BTreeMap;

/// A number that two instances have, and where they begin.
#[derive(Clone, Copy)]
pub struct Repeat {
    pub number: u64,
    pub first: usize,
    pub second: usize,
}

/// The first instance in order whose number an earlier one has.
pub fn first_repeat(alloc: Global, instances: &[Instance]) -> Result<Option<Repeat>, AllocError>
    ensures { IfOk result (λ found. MatchOption found (HasDistinctNumbers instances.now)
        (λ repeat. RepeatsFirst instances.now repeat.number repeat.first repeat.second)) }
{
    let mut places = BTreeMap::new(alloc);
    for instance in instances {
        if let Some(first) = places.insert(instance.number, instance.from)? {
            return Ok(Some(Repeat {
                number: instance.number,
                first,
                second: instance.from,
            }));
        }
    }
    Ok(None)
}
