use crate::element::ObjElement;
use spec_refusal::Refusal;

/// An item of a page.
#[derive(Drop)]
pub enum ObjItem {
    /// An element that was converted.
    Printed(ObjElement),
    /// The number of an element without a body.
    Skipped(u64),
    /// The number of an element that was refused, and why.
    Refused(u64, Refusal),
}
