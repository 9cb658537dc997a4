use thiserror::Error;

/// Why an attribute of an instance is not read. `at` is the number of the instance, and positions
/// count from 1.
#[derive(Clone, Copy, Debug, Drop, PartialEq, Eq, Error)]
pub enum AttrFault {
    /// The parameter at this position, or a member of it, has another kind than is wanted.
    #[error("the attribute {position} of #{at} has another kind")]
    BadAttribute { at: u64, position: usize },
    /// The instance refers to a number that no instance of the file has.
    #[error("#{at} refers to #{number}, which is not in the file")]
    Dangling { at: u64, number: u64 },
    /// A number of the instance has a size above 10^9 (a limit of this project).
    #[error("a number of #{at} is too large")]
    NumberTooLarge { at: u64 },
}
