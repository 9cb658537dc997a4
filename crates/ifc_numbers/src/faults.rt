ghost use Rattle.std.specs.Prelude.{◌≡◌};
ghost use Rattle.spec_geometry.specs.Files.{refusal_at};

use spec_place::PlaceFault;
use spec_refusal::Refusal;
use std::alloc::AllocError;
use thiserror::Error;

/// Why an item of an element is not read.
#[derive(Clone, Copy, Debug, Drop, PartialEq, Eq, Error)]
pub enum ItemFault {
    /// The item is refused.
    #[error("{0}")]
    Refused(Refusal),
    /// Memory was wanting.
    #[error("want of memory")]
    NoMemory,
}

impl From<Refusal> for ItemFault {
    ghost use Rattle.std.specs.Prelude.{◌≡◌};
    ghost use Rattle.ifc_numbers.specs.declared.faults.ItemFault.TheVariants.{Refused};

    ghost from_gives = { λ refusal e. e ≡ Refused refusal };

    fn from(refusal: Refusal) -> ItemFault {
        ItemFault::Refused(refusal)
    }
}

impl From<AllocError> for ItemFault {
    ghost use Rattle.std.specs.Prelude.{◌≡◌};
    ghost use Rattle.ifc_numbers.specs.declared.faults.ItemFault.TheVariants.{NoMemory};

    ghost from_gives = { λ _ e. e ≡ NoMemory };

    fn from(_: AllocError) -> ItemFault {
        ItemFault::NoMemory
    }
}

/// Why an instance is refused that has no place.
pub fn refusal_at(at: u64, fault: PlaceFault) -> Refusal
    ensures { result ≡ refusal_at at fault }
{
    match fault {
        PlaceFault::ZeroDirection | PlaceFault::Parallel => Refusal::BadDirection { at },
        PlaceFault::OffsetTooLarge => Refusal::NumberTooLarge { at },
        PlaceFault::ScaleOutOfRange => Refusal::ScaleOutOfRange { at },
    }
}
