use spec_step::Span;

/// What a keyword is to the grammar, its letters taken without case.
#[derive(Clone, Copy, PartialEq, Eq)]
pub enum Name {
    /// `HEADER`
    Header,
    /// `DATA`
    Data,
    /// `ENDSEC`
    EndSection,
    Other,
}

/// A parameter that is one token, and no reference.
#[derive(Clone, Copy)]
pub enum Atom {
    /// `$`
    Unset,
    /// `*`
    Derived,
    Int(Span),
    Real(Span),
    Text(Span),
    Enumeration(Span),
    Binary(Span),
}

/// A token, as the grammar sees it.
#[derive(Clone, Copy)]
pub enum Symbol {
    StartWord,
    EndWord,
    Keyword(Span, Name),
    /// a number, and where it begins
    Number { number: u64, from: usize },
    Atom(Atom),
    /// a semicolon, and where it ends
    Semicolon { end: usize },
    Equals,
    Open,
    Close,
    Comma,
}
