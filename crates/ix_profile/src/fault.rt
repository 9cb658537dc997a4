ghost use Rattle.std.specs.Prelude.{◌≡◌};

use std::alloc::AllocError;
use thiserror::Error;

/// Why curves make no loops.
#[derive(Debug, Drop, Error)]
pub enum LoopFault {
    /// The curve of this number, from 0, is the first with fewer than three different points.
    #[error("curve {which} has fewer than three different points")]
    DegenerateLoop { which: usize },
    /// Memory was wanting.
    #[error("want of memory")]
    NoMemory,
}

impl From<AllocError> for LoopFault {
    ghost use Rattle.ix_profile.specs.declared.fault.LoopFault.TheVariants.{NoMemory};

    ghost from_gives = { λ _ e. e ≡ NoMemory };

    fn from(_: AllocError) -> LoopFault {
        LoopFault::NoMemory
    }
}
