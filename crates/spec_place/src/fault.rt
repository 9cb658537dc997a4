use thiserror::Error;

/// Why something has no place.
#[derive(Clone, Copy, Debug, Drop, PartialEq, Eq, Error)]
pub enum PlaceFault {
    /// All parts of a direction are 0, or a plane has no normal.
    #[error("the direction is zero")]
    ZeroDirection,
    /// The reference direction is parallel to the axis.
    #[error("the axes are parallel")]
    Parallel,
    /// An offset has a part of a size above 10^16 nanometres.
    #[error("the offset is too large")]
    OffsetTooLarge,
    /// A scale is not from 0.001 to 1000, or an entry of a matrix has a size above 1000.
    #[error("the scale is out of its range")]
    ScaleOutOfRange,
}
