ghost use Rattle.std.specs.Prelude.{◌≡◌, ℕ, ◌+◌, ◌-◌, ◌<◌, ◌≤◌, ◌↔◌, IsTrue, length, slice_index, MatchOption};
ghost use Rattle.spec_step.specs.Gaps.{is_blank, Opens, Closes, IsComment, IsPiece, GapEnds};

fn is_blank(byte: u8) -> bool
    ensures { result ≡ is_blank byte }
{
    byte == b' ' || byte == b'\t' || byte == b'\r' || byte == b'\n'
}

/// A comment begins here.
fn opens(source: &[u8], at: usize) -> bool
    ensures { IsTrue result ↔ Opens source.now at }
{
    at < source.len() && at + 1 < source.len() && source[at] == b'/' && source[at + 1] == b'*'
}

/// Where the comment from a place ends.
fn comment_end(source: &[u8], from: usize) -> Option<usize>
    requires { Opens source.now from }
    ensures { MatchOption result ((j : ℕ) → IsComment source.now from j → ⊥) (λ j. IsComment source.now from j) }
{
    let mut end = from + 2;
    while end < source.len() - 1 {
        end += 1;
        if end >= from + 3 && source[end - 1] == b'*' && source[end] == b'/' {
            return Some(end + 1);
        }
    }
    None
}

/// The first place that is behind all blanks and comments.
pub fn skip(source: &[u8], from: usize) -> usize
    requires { from ≤ length source.now }
    ensures { GapEnds source.now from result }
{
    let mut at = from;
    while at < source.len() {
        if is_blank(source[at]) {
            at += 1;
        } else if opens(source, at) {
            match comment_end(source, at) {
                Some(end) => at = end,
                None => return at,
            }
        } else {
            return at;
        }
    }
    at
}
