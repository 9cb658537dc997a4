ghost use Rattle.std.specs.Prelude.{◌≡◌, length};
ghost use Rattle.edge_balance.specs.Pairs.{first_difference};

use crate::edges::Edge;
use std::cmp::Ordering;

/// The lesser of the two edges at the first place at which two lists of one length differ.
pub(crate) fn first_difference(first: &[Edge], second: &[Edge]) -> Option<Edge>
    requires { length second.now ≡ length first.now }
    ensures { result ≡ first_difference first.now second.now }
{
    for i in 0..first.len() {
        match first[i].cmp(&second[i]) {
            Ordering::Less => return Some(first[i]),
            Ordering::Equal => {}
            Ordering::Greater => return Some(second[i]),
        }
    }
    None
}
