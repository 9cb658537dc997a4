ghost use Rattle.std.specs.Prelude.{◌≡◌, ◌+◌, ◌<◌, ◌≤◌, ◌^◌, IsTrue, drop, length, All};
ghost use Rattle.std.specs.Char.{IsAsciiDigit};
ghost use Rattle.spec_num.specs.Decimals.{value};
ghost use Rattle.spec_step.specs.Spelling.{is_spelled};
ghost use Rattle.step_grammar.specs.Symbols.{name_of, mark_symbol, symbol_by};

use crate::symbol::{Atom, Name, Symbol};
use spec_step::{Span, Token, TokenKind};

fn name(text: &[u8]) -> Name
    ensures { result ≡ name_of text.now }
{
    if text.eq_ignore_ascii_case(b"ENDSEC") {
        Name::EndSection
    } else if text.eq_ignore_ascii_case(b"HEADER") {
        Name::Header
    } else if text.eq_ignore_ascii_case(b"DATA") {
        Name::Data
    } else {
        Name::Other
    }
}

/// The mark of a byte, which ends at a place.
fn mark(byte: u8, end: usize) -> Symbol
    ensures { result ≡ mark_symbol byte end }
{
    if byte == b';' {
        Symbol::Semicolon { end }
    } else if byte == b'=' {
        Symbol::Equals
    } else if byte == b'(' {
        Symbol::Open
    } else if byte == b')' {
        Symbol::Close
    } else if byte == b',' {
        Symbol::Comma
    } else if byte == b'$' {
        Symbol::Atom(Atom::Unset)
    } else {
        Symbol::Atom(Atom::Derived)
    }
}

/// The number of at most 18 decimal digits.
fn number(digits: &[u8]) -> u64
    requires digits { All IsAsciiDigit digits.now }
    requires few { length digits.now ≤ 18 }
    ensures { result ≡ value digits.now }
{
    let mut number = 0;
    for digit in digits {
        number = number * 10 + u64::from(*digit - b'0');
    }
    number
}

/// A token, as the grammar sees it: its kind, where it stands, and its bytes.
pub fn symbol_of(kind: TokenKind, span: Span, text: &[u8]) -> Symbol
    requires { IsTrue (is_spelled kind text.now) }
    ensures { result ≡ symbol_by kind span text.now }
{
    match kind {
        TokenKind::StartWord => Symbol::StartWord,
        TokenKind::EndWord => Symbol::EndWord,
        TokenKind::Keyword => Symbol::Keyword(span, name(text)),
        TokenKind::Number => Symbol::Number {
            number: number(&text[1..]),
            from: span.from,
        },
        TokenKind::Int => Symbol::Atom(Atom::Int(span)),
        TokenKind::Real => Symbol::Atom(Atom::Real(span)),
        TokenKind::Text => Symbol::Atom(Atom::Text(span)),
        TokenKind::Enumeration => Symbol::Atom(Atom::Enumeration(span)),
        TokenKind::Binary => Symbol::Atom(Atom::Binary(span)),
        TokenKind::Mark => mark(text[0], span.end),
    }
}
