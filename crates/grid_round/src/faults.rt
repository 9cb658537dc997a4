use spec_refusal::Refusal;
use std::alloc::AllocError;
use thiserror::Error;

/// Why an element is not taken to the grid.
#[derive(Clone, Copy, Debug, Drop, PartialEq, Eq, Error)]
pub enum RoundFault {
    /// The element is refused.
    #[error("{0}")]
    Refused(Refusal),
    /// Memory was wanting.
    #[error("want of memory")]
    NoMemory,
}

impl From<Refusal> for RoundFault {
    ghost use Rattle.std.specs.Prelude.{◌≡◌};
    ghost use Rattle.grid_round.specs.declared.faults.RoundFault.TheVariants.{Refused};

    ghost from_gives = { λ refusal e. e ≡ Refused refusal };

    fn from(refusal: Refusal) -> RoundFault {
        RoundFault::Refused(refusal)
    }
}

impl From<AllocError> for RoundFault {
    ghost use Rattle.std.specs.Prelude.{◌≡◌};
    ghost use Rattle.grid_round.specs.declared.faults.RoundFault.TheVariants.{NoMemory};

    ghost from_gives = { λ _ e. e ≡ NoMemory };

    fn from(_: AllocError) -> RoundFault {
        RoundFault::NoMemory
    }
}
