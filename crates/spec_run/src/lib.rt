//! What a run finds, and what it reports.
#![tactic(auto)]

use thiserror::Error;

/// Why a STEP file is refused. Places are in bytes, from 0.
#[derive(Clone, Copy, Debug, Drop, PartialEq, Eq, Error)]
pub enum FileFault {
    /// The input has more than 2^27 bytes.
    #[error("more than 2^27 bytes")]
    TooLarge,
    /// The tokens before this place begin some file, and with what stands here none does; where
    /// the text ends too early, the place is its length (ISO 10303-21).
    #[error("not a file of ISO 10303-21, at byte {at}")]
    Syntax {
        at: usize,
    },
    /// The opening parenthesis at this place is the 33rd that stands open.
    #[error("more than 32 parentheses stand open, at byte {at}")]
    Nested {
        at: usize,
    },
    /// No `FILE_SCHEMA` of the header names a schema that is read.
    #[error("no schema that is read")]
    Schema,
    /// Two instances have one number; the second is the first in the file whose number an earlier
    /// one has. The places are those of their numbers.
    #[error("the number {number} stands at byte {first} and again at byte {second}")]
    DuplicateNumber {
        number: u64,
        first: usize,
        second: usize,
    },
    /// No project stands in the file (IFC4, IfcProject).
    #[error("no project")]
    NoProject,
    /// The units of the first project give no unit of length that is read (IFC4, IfcUnitAssignment).
    #[error("no unit of length that is read")]
    NoLengthUnit,
}

/// Why a text is refused as a page.
#[derive(Clone, Copy, Debug, Drop, PartialEq, Eq, Error)]
pub enum PageFault {
    /// The input has more than 2^27 bytes.
    #[error("more than 2^27 bytes")]
    TooLarge,
    /// The text is no page of this project, and this line, from 1, is the first that is not allowed.
    #[error("not a page, at line {n}")]
    Line { n: usize },
}
