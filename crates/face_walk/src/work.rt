use plane_cells::Step;
use plane_core::PlaneId;
use poly_frag::Frag;
use tree_pool::TreeId;

/// Where the front and the back of a part of a plane have come to on their way down a tree.
#[derive(Clone, Copy)]
pub(crate) struct Places {
    pub front: TreeId,
    pub back: TreeId,
}

/// A part of a plane on its way down a tree.
#[derive(Drop)]
pub(crate) struct Sheet {
    pub frag: Frag,
    pub places: Places,
}

/// What two places are at: two leaves, or the plane of a node at one of them.
#[derive(Clone, Copy)]
pub(crate) enum Meeting {
    Leaves { in_front: bool, behind: bool },
    Crossing { plane: PlaneId },
}

/// A tree whose walk waits. Its path is the first steps of the walk's path, as many as the depth says, and one step more.
#[derive(Clone, Copy)]
pub(crate) struct Visit {
    pub id: TreeId,
    pub depth: usize,
    pub step: Step,
}
