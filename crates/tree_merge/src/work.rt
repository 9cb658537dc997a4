use plane_cells::Cell;
use plane_core::PlaneId;
use tree_pool::TreeId;

/// Two trees that are to be merged.
#[derive(Clone, Copy)]
pub(crate) struct Pair {
    pub first: TreeId,
    pub second: TreeId,
}

/// Two trees that are to be merged in a cell.
#[derive(Drop)]
pub(crate) struct Work {
    pub cell: Cell,
    pub pair: Pair,
}

/// How the merge of two trees begins: with one value, or with a plane and the trees in front of it and behind it.
#[derive(Clone, Copy)]
pub(crate) enum Next {
    Settled(bool),
    Divided {
        plane: PlaneId,
        front: Pair,
        back: Pair,
    },
}

/// What waits for the merge of a part: the work behind a plane, in front of which the part lies, or the node of a plane,
/// behind which the part lies, with the merge that is in front.
#[derive(Drop)]
pub(crate) enum Frame {
    Back { plane: PlaneId, work: Work },
    Join { plane: PlaneId, front: TreeId },
}

/// Where a walk is: at work that is to be done, or at the merge of a part.
#[derive(Drop)]
pub(crate) enum State {
    Down(Work),
    Up(TreeId),
}

/// What one turn of a walk leads to: where the walk is then, or its end.
#[derive(Drop)]
pub(crate) enum Turn {
    On(State),
    Done(TreeId),
}
