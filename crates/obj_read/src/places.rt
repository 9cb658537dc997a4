ghost use Rattle.std.specs.Prelude.{◌≡◌, ℕ, ◌+◌, ◌<◌, ◌≤◌, ◌^◌, length, slice_index, MatchOption, true, false};
ghost use Rattle.std.specs.List.{list_all};
ghost use Rattle.obj_read.specs.States.{places_of, differ_round, is_corner, are_indices};

/// Neighbours differ, the last and the first too.
fn differ_round(places: &[usize]) -> bool
    ensures { result ≡ differ_round places.now }
{
    let [first, rest @ ..] = places else {
        return true;
    };
    let mut from = *first;
    for to in rest {
        if from == *to {
            return false;
        }
        from = *to;
    }
    from != *first
}

/// Each is the number of a corner of an element with so many corners, where so many stand before it.
fn are_corners(before: usize, corners: usize, indices: &[usize]) -> bool
    requires { before + corners < 2 ^ 64 }
    ensures { result ≡ list_all (is_corner before corners) indices.now }
{
    for index in indices {
        if !(before < *index && *index <= before + corners) {
            return false;
        }
    }
    true
}

/// The numbers of corners become their places in the element.
fn to_places(before: usize, indices: &mut [usize])
    requires small { before + 1 < 2 ^ 64 }
    requires corners { (k : ℕ) → k < length indices.old → before < slice_index indices.old k }
    ensures { indices.new ≡ places_of before indices.old }
{
    for index in indices.iter_mut() {
        *index -= before + 1;
    }
}

/// The places of the corners of a face with so many edges, or `None` exactly where a face may not have these indices.
pub(crate) fn places(
    before: usize,
    corners: usize,
    edges: usize,
    indices: Vec<usize>,
) -> Option<Vec<usize>>
    requires { before + corners < 2 ^ 64 }
    ensures { MatchOption result (are_indices before corners edges indices.items ≡ false)
        (λ places. (are_indices before corners edges indices.items ≡ true)
        × (places.items ≡ places_of before indices.items)) }
{
    if edges < 3 || edges != indices.len() || !are_corners(before, corners, &indices) {
        return None;
    }
    let mut places = indices;
    to_places(before, &mut places);
    differ_round(&places).then_some(places)
}
