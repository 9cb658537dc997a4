use crate::token::Span;
use sqlite_items::{Boxed, Items};

/// A parameter (ISO 10303-21). A span runs from the first byte of its token to the byte after its
/// last, quotes and points included.
#[derive(Debug, Drop)]
pub enum Param {
    /// `$`
    Unset,
    /// `*`
    Derived,
    Int(Span),
    Real(Span),
    Text(Span),
    Enumeration(Span),
    Binary(Span),
    /// the number of an instance: the value of the digits behind `#`
    Reference(u64),
    List(Items<Param>),
    /// a keyword, and the one parameter in the parentheses behind it
    Typed(Span, Boxed<Param>),
}

/// A keyword and its parameters, as `IFCDIRECTION((0.,0.,1.))`. The span is the keyword's.
#[derive(Debug, Drop)]
pub struct Entry {
    pub keyword: Span,
    pub params: Items<Param>,
}

/// What stands behind the `=` of an instance: one entry, or one or more in parentheses.
#[derive(Debug, Drop)]
pub enum Body {
    Simple(Entry),
    Complex(Items<Entry>),
}

/// An instance, from the first byte of its number to the byte after its `;`. The number is the
/// value of the digits, so `#013` has the number 13.
#[derive(Debug, Drop)]
pub struct Instance {
    pub number: u64,
    pub body: Body,
    pub from: usize,
    pub end: usize,
}
