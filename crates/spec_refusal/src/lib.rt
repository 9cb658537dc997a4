//! Why an element, or the unit of length of a file, is refused.
#![tactic(auto)]

use spec_space::Vector;
use thiserror::Error;

/// Why an element is refused (rules of this project). `at` is the number of an instance of the file,
/// and positions count from 1.
#[derive(Clone, Copy, Debug, Drop, PartialEq, Eq, Error)]
pub enum Refusal {
    /// E1: the keyword of the instance is not read at its place, or the instance has several
    /// entries; or an attribute of it says more than is read.
    #[error("#{at} is not read at its place")]
    Unsupported { at: u64 },
    /// E2: a radius or a slope of the instance is not 0, or an arc stands in the curve.
    #[error("#{at} is curved")]
    Curved { at: u64 },
    /// E3: a wanted attribute is unset or of another kind, a list is empty, or a value breaks a rule.
    #[error("the attribute {position} of #{at} is not what is wanted")]
    BadAttribute { at: u64, position: usize },
    /// E4: the reference names no instance of the file.
    #[error("#{at} refers to #{number}, which is not in the file")]
    Dangling { at: u64, number: u64 },
    /// E5: a number has a size above 10^9, a length or an offset above 10^16 nanometres, or a ratio
    /// of a direction above 10^6.
    #[error("a number of #{at} is too large")]
    NumberTooLarge { at: u64 },
    /// E6: a direction is zero, or two axes are parallel.
    #[error("a direction of #{at} is zero, or parallel to another")]
    BadDirection { at: u64 },
    /// E7: a scale is below 0.001 or above 1000, or scales that are composed are too large.
    #[error("a scale of #{at} is out of its range")]
    ScaleOutOfRange { at: u64 },
    /// E8: the solid is reached at depth 65, or the placement is link 65 of its chain.
    #[error("#{at} stands too deep")]
    TooDeep { at: u64 },
    /// E9: the element has more than 4096 triangles and half-spaces; so many were reached.
    #[error("the element has {triangles} triangles or more")]
    ElementTooLarge { triangles: u128 },
    /// E10: a corner of the primitive, or the place of the half-space, has a coordinate of more than
    /// 2^20 grid steps.
    #[error("a corner of #{at} is too far away")]
    CornerTooFar { at: u64 },
    /// E11: the edge between these two corners, in grid steps, stands an odd number of times in the
    /// faces of the primitive.
    #[error("the shell of #{at} is open at an edge")]
    OpenShell { at: u64, from: Vector, to: Vector },
    /// E12: the numbers of a plane of the face or primitive are too large.
    #[error("a plane of #{at} is too large")]
    PlaneTooLarge { at: u64 },
    /// E13: the item has no bounds.
    #[error("#{at} is unbounded")]
    Unbounded { at: u64 },
}

/// Why a file has no unit of length that is read.
#[derive(Clone, Copy, Debug, Drop, PartialEq, Eq, Error)]
pub enum UnitFault {
    /// No project stands in the file.
    #[error("no project")]
    NoProject,
    /// The units of the first project give no unit of length that is read.
    #[error("no unit of length that is read")]
    NoLengthUnit,
}
