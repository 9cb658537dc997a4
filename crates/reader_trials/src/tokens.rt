use step_token::{Token, TokenKind, TokenStep, next_token};

fn got(kind: TokenKind, from: usize, end: usize) -> TokenStep {
    TokenStep::Got(Token { kind, from, end })
}

#[test]
fn finds_the_longest_token(rt: HostRuntime) {
    for (text, want) in [
        ("ISO-10303-21;", got(TokenKind::StartWord, 0, 12)),
        ("END-ISO-10303-21;", got(TokenKind::EndWord, 0, 16)),
        (" \t\r\nIfcWall2_(", got(TokenKind::Keyword, 4, 13)),
        ("!x", got(TokenKind::Keyword, 0, 2)),
        // a number has at most 18 digits
        ("#1234567890123456789", got(TokenKind::Number, 0, 19)),
        ("-12,", got(TokenKind::Int, 0, 3)),
        ("+1.5e-3)", got(TokenKind::Real, 0, 7)),
        // an exponent without digits is none
        ("1.E", got(TokenKind::Real, 0, 2)),
        ("'a''b'", got(TokenKind::Text, 0, 6)),
        ("'w''x", got(TokenKind::Text, 0, 3)),
        (".MILLI.,", got(TokenKind::Enumeration, 0, 7)),
        ("\"0aF\"", got(TokenKind::Binary, 0, 5)),
        ("/* a * b */;", got(TokenKind::Mark, 11, 12)),
        ("/*/", TokenStep::Bad { at: 0 }),
        (" .T", TokenStep::Bad { at: 1 }),
        (" /**/\n", TokenStep::End),
        ("", TokenStep::End),
    ] {
        assert_eq!(rt; next_token(text.as_bytes(), 0), want, "at {text}");
    }
}
