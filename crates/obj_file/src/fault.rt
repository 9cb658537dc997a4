use thiserror::Error;

/// Why a text is not read.
#[derive(Clone, Copy, Debug, Drop, PartialEq, Eq, Error)]
pub enum ObjFault {
    /// The text is no page, and its line n, from 1, is the first that is not allowed; the number of
    /// its lines and 1 where it ends too early.
    #[error("line {n} is not allowed at its place")]
    Line { n: usize },
    /// Want of memory.
    #[error("want of memory")]
    NoMemory,
}
