use crate::regions::Region;
use plane_cells::Cell;
use plane_core::PlaneId;
use tree_pool::TreeId;

/// How many regions hold a point, modulo 2, with one more where `odd`.
#[derive(Drop)]
pub(crate) struct Count {
    pub regions: Vec<Region>,
    pub odd: bool,
}

/// What a cell leaves of a region: none of its points, all of them, or those of a region with no more sides.
#[derive(Drop)]
pub(crate) enum Left {
    Nowhere,
    Everywhere,
    Within(Region),
}

/// Regions that are to be counted in a cell.
#[derive(Drop)]
pub(crate) struct Work {
    pub cell: Cell,
    pub count: Count,
}

/// What waits for the tree of a part: the work behind a plane, in front of which the part lies, or the node of a plane,
/// behind which the part lies, with the tree that is in front.
#[derive(Drop)]
pub(crate) enum Frame {
    Back { plane: PlaneId, work: Work },
    Join { plane: PlaneId, front: TreeId },
}

/// Where a walk is: at work that is to be done, or at the tree of a part.
#[derive(Drop)]
pub(crate) enum State {
    Down(Work),
    Up(TreeId),
}

/// What one turn of a walk leads to: where the walk is then, or its end.
#[derive(Drop)]
pub(crate) enum Turn {
    On(State),
    Done(TreeId),
}
