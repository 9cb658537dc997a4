ghost use Rattle.std.specs.Prelude.{◌≡◌};

use std::alloc::AllocError;
use thiserror::Error;

/// Why a text is not read as a file. Places are in bytes, from 0.
#[derive(Debug, Drop, Error)]
pub enum StepFault {
    /// The tokens before this place begin some file, and with what stands here none does; where
    /// the text ends too early, the place is its length.
    #[error("not a file of ISO 10303-21, at byte {at}")]
    Syntax {
        at: usize,
    },
    /// The opening parenthesis at this place is the 33rd that stands open.
    #[error("more than 32 parentheses stand open, at byte {at}")]
    Nested {
        at: usize,
    },
    /// No `FILE_SCHEMA` of the header names a schema that is read.
    #[error("no schema that is read")]
    Schema,
    /// Two instances have one number; the second is the first in the file whose number an earlier
    /// one has. The places are those of their numbers.
    #[error("the number {number} stands at byte {first} and again at byte {second}")]
    DuplicateNumber {
        number: u64,
        first: usize,
        second: usize,
    },
    /// Memory was wanting.
    #[error("want of memory")]
    NoMemory,
}

impl From<AllocError> for StepFault {
    ghost use Rattle.spec_step.specs.declared.fault.StepFault.TheVariants.{NoMemory};

    ghost from_gives = { λ _ e. e ≡ NoMemory };

    fn from(_: AllocError) -> StepFault {
        StepFault::NoMemory
    }
}
