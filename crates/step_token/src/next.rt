ghost use Rattle.std.specs.Prelude.{◌≤◌, length};
ghost use Rattle.spec_step.specs.Gaps.{IsNext};

use crate::gap::skip;
use crate::longest::longest;
use spec_step::{Token, TokenStep};

/// What stands at a place, in bytes, blanks and comments skipped: the longest token that begins
/// there, `Bad` where none begins or a comment does not end, or `End` (ISO 10303-21, with small
/// letters allowed in keywords, before an exponent and in a binary).
pub fn next_token(source: &[u8], from: usize) -> TokenStep
    requires { from ≤ length source.now }
    ensures { IsNext source.now from result }
{
    let at = skip(source, from);
    if at == source.len() {
        return TokenStep::End;
    }
    match longest(&source[at..]) {
        None => TokenStep::Bad { at },
        Some((kind, length)) => TokenStep::Got(Token {
            kind,
            from: at,
            end: at + length,
        }),
    }
}
