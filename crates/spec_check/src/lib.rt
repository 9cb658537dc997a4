//! What a page may hold, and what is found of one that is checked.
#![tactic(auto)]

/// What is found of a page that is checked: the first that holds, over the elements in order
/// (rules of this project). Corners and faces are numbered from 1 over the whole page.
#[derive(Clone, Copy, Debug, PartialEq, Eq)]
pub enum Verdict {
    /// Nothing is wrong.
    Sound,
    /// The printed corner is more than half a micrometre from its exact image in some coordinate.
    FarCorner { v: usize },
    /// A corner of the face is not on the face's plane.
    OffPlane { face: usize },
    /// An edge of the face is not on its plane, or does not go round the face, or has a corner
    /// outside of it.
    NotConvex { face: usize },
    /// The edge from corner u to corner v stands a different number of times in the faces than the
    /// one from v to u.
    Unbalanced { u: usize, v: usize },
    /// The volume is not that of the printed corners of the element.
    WrongVolume { element: u64 },
}
