ghost use Rattle.tree_pool.specs.Trees.{Tree};
ghost use Rattle.tree_pool.specs.Pools.{IsLive, StandsFor, AreTrees};
ghost use Rattle.face_walk.specs.Works.{side_tree, AreLive, GoesOn, IsMeeting};

use crate::work::{Meeting, Places};
use plane_core::PlaneId;
use tree_pool::{Pool, PoolNode, TreeId};

/// Where a place goes on, on one side of a plane: to the child there, if it is at a node of the plane.
fn on_side(pool: &Pool, at: TreeId, plane: PlaneId, in_front: bool) -> TreeId
    requires live { IsLive pool.now at }
    ensures place { (t : Tree) → StandsFor pool.now at t → StandsFor pool.now result (side_tree plane.k in_front t) }
{
    match pool.get(at) {
        PoolNode::Leaf(_) => at,
        PoolNode::Node {
            plane: own,
            front,
            back,
        } => {
            if own.k != plane.k {
                return at;
            }
            if in_front { front } else { back }
        }
    }
}

impl Places {
    /// Where the two places go on at a plane: each in front of it, or behind it.
    pub(crate) fn on_sides(self, pool: &Pool, plane: PlaneId, front: bool, back: bool) -> Places
        requires live { AreLive pool.now self }
        ensures places { GoesOn pool.now plane.k front back self result }
        ensures trees { AreTrees pool.now }
    {
        let _live = pool.count();
        Places {
            front: on_side(pool, self.front, plane, front),
            back: on_side(pool, self.back, plane, back),
        }
    }

    /// What the two places are at.
    pub(crate) fn meeting(self, pool: &Pool) -> Meeting
        requires live { AreLive pool.now self }
        ensures meeting { IsMeeting pool.now self result }
        ensures trees { AreTrees pool.now }
    {
        match pool.get(self.front) {
            PoolNode::Node { plane, .. } => Meeting::Crossing { plane },
            PoolNode::Leaf(in_front) => match pool.get(self.back) {
                PoolNode::Node { plane, .. } => Meeting::Crossing { plane },
                PoolNode::Leaf(behind) => Meeting::Leaves { in_front, behind },
            },
        }
    }
}
