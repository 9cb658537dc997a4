/// What a token is.
#[derive(Clone, Copy, Debug, PartialEq, Eq)]
pub enum TokenKind {
    /// `ISO-10303-21`
    StartWord,
    /// `END-ISO-10303-21`
    EndWord,
    Keyword,
    /// `#` and the digits of an instance's number
    Number,
    Int,
    Real,
    Text,
    Enumeration,
    Binary,
    /// one of `;` `=` `(` `)` `,` `$` `*`
    Mark,
}

/// A run of bytes, from its first byte to the byte after its last.
#[derive(Clone, Copy, Debug, PartialEq, Eq)]
pub struct Span {
    pub from: usize,
    pub end: usize,
}

/// A token, from its first byte to the byte after its last.
#[derive(Clone, Copy, Debug, PartialEq, Eq)]
pub struct Token {
    pub kind: TokenKind,
    pub from: usize,
    pub end: usize,
}

/// What stands at a place, blanks and comments skipped: a token, a byte at which none begins, or
/// the end of the text.
#[derive(Clone, Copy, Debug, PartialEq, Eq)]
pub enum TokenStep {
    Got(Token),
    Bad { at: usize },
    End,
}
