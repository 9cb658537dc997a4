ghost use Rattle.std.specs.Prelude.{◌≡◌};
ghost use Rattle.spec_step.specs.Spelling.{by_class, is_spelled};
ghost use Rattle.spec_step.specs.Longest.{Longest};
ghost use Rattle.step_token.specs.Machine.{accepted_kind, better_of};

use crate::machine::State;
use spec_step::TokenKind;

/// The longest token at the front, the two words that frame a file aside, and its length.
pub fn longest_by_class(bytes: &[u8]) -> Option<(TokenKind, usize)>
    ensures { Longest by_class bytes.now result }
{
    let mut state = State::Start;
    let mut best = None;
    for (at, byte) in bytes.iter().enumerate() {
        match state.step(*byte) {
            None => return best,
            Some(next) => {
                state = next;
                best = better(best, state, at + 1);
            }
        }
    }
    best
}

fn better(
    best: Option<(TokenKind, usize)>,
    state: State,
    length: usize,
) -> Option<(TokenKind, usize)>
    ensures { result ≡ better_of best (accepted_kind state) length }
{
    match state.accepts() {
        None => best,
        Some(kind) => Some((kind, length)),
    }
}

const START: &[u8] = b"ISO-10303-21";

const END: &[u8] = b"END-ISO-10303-21";

/// The longest token at the front, and its length.
pub fn longest(bytes: &[u8]) -> Option<(TokenKind, usize)>
    ensures { Longest is_spelled bytes.now result }
{
    if bytes.starts_with(START) {
        return Some((TokenKind::StartWord, 12));
    }
    if bytes.starts_with(END) {
        return Some((TokenKind::EndWord, 16));
    }
    longest_by_class(bytes)
}
