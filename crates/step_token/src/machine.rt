ghost use Rattle.std.specs.Prelude.{◌≡◌};
ghost use Rattle.spec_num.specs.Decimals.{is_sign};
ghost use Rattle.spec_step.specs.Spelling.{is_letter, is_word_byte, is_mark};
ghost use Rattle.step_token.specs.Machine.{first_of, go, step_of, accepted_kind};

use spec_step::TokenKind;

/// What was read of a token so far.
#[derive(Clone, Copy)]
pub enum State {
    Start,
    Bang,
    Word,
    Hash,
    Number(u8),
    Sign,
    Digits,
    Fraction,
    Exponent,
    ExponentSign,
    ExponentDigits,
    Quoted,
    Quote,
    Point,
    Name,
    NameEnd,
    BinaryStart,
    BinaryDigits,
    BinaryEnd,
    Mark,
}

pub fn is_letter(byte: u8) -> bool
    ensures { result ≡ is_letter byte }
{
    byte.is_ascii_alphabetic() || byte == b'_'
}

pub fn is_word_byte(byte: u8) -> bool
    ensures { result ≡ is_word_byte byte }
{
    is_letter(byte) || byte.is_ascii_digit()
}

pub fn is_sign(byte: u8) -> bool
    ensures { result ≡ is_sign byte }
{
    byte == b'+' || byte == b'-'
}

pub fn is_mark(byte: u8) -> bool
    ensures { result ≡ is_mark byte }
{
    byte == b';'
        || byte == b'='
        || byte == b'('
        || byte == b')'
        || byte == b','
        || byte == b'$'
        || byte == b'*'
}

fn first(byte: u8) -> Option<State>
    ensures { result ≡ first_of byte }
{
    if is_letter(byte) {
        Some(State::Word)
    } else if byte.is_ascii_digit() {
        Some(State::Digits)
    } else if is_sign(byte) {
        Some(State::Sign)
    } else if is_mark(byte) {
        Some(State::Mark)
    } else if byte == b'!' {
        Some(State::Bang)
    } else if byte == b'#' {
        Some(State::Hash)
    } else if byte == b'\'' {
        Some(State::Quoted)
    } else if byte == b'.' {
        Some(State::Point)
    } else if byte == b'"' {
        Some(State::BinaryStart)
    } else {
        None
    }
}

fn go(passes: bool, next: State) -> Option<State>
    ensures { result ≡ go passes next }
{
    if passes { Some(next) } else { None }
}

/// One digit more of an instance's number, where this many may follow.
fn step_number(left: u8, byte: u8) -> Option<State>
    ensures { result ≡ step_of (State.Number left) byte }
{
    if left == 0 {
        None
    } else {
        go(byte.is_ascii_digit(), State::Number(left - 1))
    }
}

/// One byte more behind the digits of an integer.
fn step_digits(byte: u8) -> Option<State>
    ensures { result ≡ step_of State.Digits byte }
{
    if byte == b'.' {
        Some(State::Fraction)
    } else {
        go(byte.is_ascii_digit(), State::Digits)
    }
}

/// One byte more behind the point of a real.
fn step_fraction(byte: u8) -> Option<State>
    ensures { result ≡ step_of State.Fraction byte }
{
    if byte == b'E' || byte == b'e' {
        Some(State::Exponent)
    } else {
        go(byte.is_ascii_digit(), State::Fraction)
    }
}

/// One byte more behind the letter before an exponent.
fn step_exponent(byte: u8) -> Option<State>
    ensures { result ≡ step_of State.Exponent byte }
{
    if is_sign(byte) {
        Some(State::ExponentSign)
    } else {
        go(byte.is_ascii_digit(), State::ExponentDigits)
    }
}

/// One byte more of a text.
fn step_quoted(byte: u8) -> Option<State>
    ensures { result ≡ step_of State.Quoted byte }
{
    if byte == b'\'' {
        Some(State::Quote)
    } else {
        Some(State::Quoted)
    }
}

/// One byte more of an enumeration.
fn step_name(byte: u8) -> Option<State>
    ensures { result ≡ step_of State.Name byte }
{
    if byte == b'.' {
        Some(State::NameEnd)
    } else {
        go(is_word_byte(byte), State::Name)
    }
}

/// One byte more behind the digits of a binary.
fn step_binary(byte: u8) -> Option<State>
    ensures { result ≡ step_of State.BinaryDigits byte }
{
    if byte == b'"' {
        Some(State::BinaryEnd)
    } else {
        go(byte.is_ascii_hexdigit(), State::BinaryDigits)
    }
}

impl State {
    /// One byte more of the token.
    pub fn step(self, byte: u8) -> Option<State>
        ensures { result ≡ step_of self byte }
    {
        match self {
            State::Start => first(byte),
            State::Bang => go(is_letter(byte), State::Word),
            State::Word => go(is_word_byte(byte), State::Word),
            State::Hash => go(byte.is_ascii_digit(), State::Number(17)),
            State::Number(left) => step_number(left, byte),
            State::Sign => go(byte.is_ascii_digit(), State::Digits),
            State::Digits => step_digits(byte),
            State::Fraction => step_fraction(byte),
            State::Exponent => step_exponent(byte),
            State::ExponentSign => go(byte.is_ascii_digit(), State::ExponentDigits),
            State::ExponentDigits => go(byte.is_ascii_digit(), State::ExponentDigits),
            State::Quoted => step_quoted(byte),
            State::Quote => go(byte == b'\'', State::Quoted),
            State::Point => go(is_letter(byte), State::Name),
            State::Name => step_name(byte),
            State::NameEnd => None,
            State::BinaryStart => go(byte.is_ascii_hexdigit(), State::BinaryDigits),
            State::BinaryDigits => step_binary(byte),
            State::BinaryEnd => None,
            State::Mark => None,
        }
    }

    /// The token that may end here.
    pub fn accepts(self) -> Option<TokenKind>
        ensures { result ≡ accepted_kind self }
    {
        match self {
            State::Word => Some(TokenKind::Keyword),
            State::Number(_) => Some(TokenKind::Number),
            State::Digits => Some(TokenKind::Int),
            State::Fraction => Some(TokenKind::Real),
            State::ExponentDigits => Some(TokenKind::Real),
            State::Quote => Some(TokenKind::Text),
            State::NameEnd => Some(TokenKind::Enumeration),
            State::BinaryEnd => Some(TokenKind::Binary),
            State::Mark => Some(TokenKind::Mark),
            _ => None,
        }
    }
}
