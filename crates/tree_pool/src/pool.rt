ghost use Rattle.std.specs.Prelude.{◌≡◌, ◌≢◌, ◌↔◌, Contains, ◌≤◌, ◌+◌, suc, max, Some, None, Ok, IfOk, OnOk, OnErr};
ghost use Rattle.tree_pool.specs.declared.node.TreeId.{TreeId};
ghost use Rattle.tree_pool.specs.declared.node.PoolNode.TheVariants.{Node};
ghost use Rattle.tree_pool.specs.Kept.{IsKept};
ghost use Rattle.tree_pool.specs.Trees.{Tree, leaf, node, IsTreeOver};
ghost use Rattle.tree_pool.specs.Pools.{IsLive, live_count, node_at, slot_at, rank_at, StandsFor, AddsOnly, KeepsNodes, KeepsTrees, IsPool, AreTrees};

use crate::add::{add_slot, find};
use crate::drop::drop_others;
use crate::node::{PoolNode, Slot, TreeId};
use crate::reach::reached;
use indexmap::IndexMap;
use plane_core::PlaneId;
use slab::Slab;
use std::alloc::{AllocError, Global};
use std::marker::Model;

/// Trees by number. A live number stands for one finite tree, and two live numbers stand for different trees: equal
/// trees are one. A contract sees the list of the slots.
#[derive(Drop)]
pub struct Pool {
    slots: Slab<Slot>,
    index: IndexMap<PoolNode, usize>,
    no: TreeId,
    yes: TreeId,
}

impl Model for Pool {
    ghost use Rattle.std.specs.Prelude.{◌≡◌, List, Option, Some, false, true};
    ghost use Rattle.tree_pool.specs.declared.node.Slot.{Slot};
    ghost use Rattle.tree_pool.specs.declared.node.PoolNode.TheVariants.{Leaf};

    ghost Value = { List (Option Slot) };

    ghost use Rattle.tree_pool.specs.Pools.{IsPool, node_at};
    ghost use Rattle.tree_pool.specs.Index.{IsIndexOf};

    ghost view = { λ p. p.slots.slots };

    ghost invariant = { λ p. IsPool p.slots.slots × IsIndexOf p.slots.slots p.index × (node_at p.slots.slots p.no ≡ Some (Leaf false)) × (node_at p.slots.slots p.yes ≡ Some (Leaf true)) };
}

impl Pool {
    /// A pool with the two leaves. The error is want of memory.
    pub fn new(alloc: Global) -> Result<Pool, AllocError>
        ensures pool { IfOk result IsPool }
        ensures count { IfOk result (λ pool. live_count pool ≡ 2) }
    {
        let mut slots = Slab::new(alloc);
        let mut index = IndexMap::new(alloc);
        let no = add_slot(
            &mut slots,
            &mut index,
            Slot {
                node: PoolNode::Leaf(false),
                rank: 0,
            },
        )?;
        let yes = add_slot(
            &mut slots,
            &mut index,
            Slot {
                node: PoolNode::Leaf(true),
                rank: 0,
            },
        )?;
        Ok(Pool {
            slots,
            index,
            no,
            yes,
        })
    }

    /// The number of a leaf.
    pub fn leaf(&self, value: bool) -> TreeId
        ensures stands { StandsFor self.now result (leaf value) }
        ensures live { IsLive self.now result }
        ensures pool { IsPool self.now }
    {
        if value { self.yes } else { self.no }
    }

    /// How many numbers are live.
    pub fn count(&self) -> usize
        ensures value { result ≡ live_count self.now }
        ensures pool { IsPool self.now }
        ensures trees { AreTrees self.now }
    {
        self.slots.len()
    }

    /// What is kept under a live number.
    fn slot(&self, id: TreeId) -> Slot
        requires live { IsLive self.now id }
        ensures value { slot_at self.now id.key ≡ Some result }
        ensures pool { IsPool self.now }
    {
        match self.slots.get(id.key) {
            Some(slot) => *slot,
            None => unreachable!(),
        }
    }

    /// The top of the tree of a live number.
    pub fn get(&self, id: TreeId) -> PoolNode
        requires live { IsLive self.now id }
        ensures value { node_at self.now id ≡ Some result }
        ensures pool { IsPool self.now }
        ensures trees { AreTrees self.now }
    {
        self.slot(id).node
    }

    /// One above the higher of two trees.
    fn rank_above(&self, front: TreeId, back: TreeId) -> usize
        requires front_live { IsLive self.now front }
        requires back_live { IsLive self.now back }
        ensures value { result ≡ suc (max (rank_at self.now front) (rank_at self.now back)) }
    {
        let live = self.slots.len();
        let front = self.slot(front).rank;
        let back = self.slot(back).rank;
        prove!(front < live);
        prove!(back < live);
        if front < back { back + 1 } else { front + 1 }
    }

    /// The number of a node with two different children: the one that it has, or else a new one.
    fn branch(&mut self, plane: PlaneId, front: TreeId, back: TreeId) -> Result<TreeId, AllocError>
        requires front_live { IsLive self.old front }
        requires back_live { IsLive self.old back }
        requires differ { front ≢ back }
        ensures top { IfOk result (λ id. node_at self.new id ≡ Some (Node plane front back)) }
        ensures known { (id : TreeId) → node_at self.old id ≡ Some (Node plane front back) → (result ≡ Ok id) × (self.new ≡ self.old) }
        ensures kept { KeepsNodes self.old self.new }
        ensures only { IfOk result (AddsOnly self.old self.new) }
        ensures count { live_count self.new ≤ suc (live_count self.old) }
        ensures pools { IsPool self.old × IsPool self.new }
        ensures err { OnErr result (self.new ≡ self.old) }
    {
        let node = PoolNode::Node { plane, front, back };
        if let Some(key) = find(&self.index, node) {
            return Ok(TreeId { key });
        }
        let rank = self.rank_above(front, back);
        add_slot(&mut self.slots, &mut self.index, Slot { node, rank })
    }

    /// The number of the tree with this plane over two live trees. Where the two are one, the answer is that one. Otherwise
    /// it is the number that the node has, or else a new one. The error is want of memory, and then the pool is as before.
    pub fn node(
        &mut self,
        plane: PlaneId,
        front: TreeId,
        back: TreeId,
    ) -> Result<TreeId, AllocError>
        requires front_live { IsLive self.old front }
        requires back_live { IsLive self.old back }
        ensures same { front ≡ back → (result ≡ Ok front) × (self.new ≡ self.old) }
        ensures known { (id : TreeId) → node_at self.old id ≡ Some (Node plane front back) → (result ≡ Ok id) × (self.new ≡ self.old) }
        ensures joined { IfOk result (λ id. (f g : Tree) → StandsFor self.old front f → StandsFor self.old back g → f ≡ g → StandsFor self.new id f) }
        ensures stands { IfOk result (λ id. (f g : Tree) → StandsFor self.old front f → StandsFor self.old back g → f ≢ g → StandsFor self.new id (node plane.k f g)) }
        ensures over { IfOk result (λ id. (f g t : Tree) → StandsFor self.old front f → StandsFor self.old back g → StandsFor self.new id t → IsTreeOver plane.k f g t) }
        ensures kept { KeepsTrees self.old self.new }
        ensures live { IfOk result (IsLive self.new) }
        ensures still_live { (id : TreeId) → IsLive self.old id → IsLive self.new id }
        ensures only { IfOk result (AddsOnly self.old self.new) }
        ensures count { live_count self.new ≤ suc (live_count self.old) }
        ensures trees { AreTrees self.new }
        ensures pool { IsPool self.new }
        ensures err { OnErr result (self.new ≡ self.old) }
    {
        let _live = self.slots.len();
        if front.key == back.key {
            return Ok(front);
        }
        self.branch(plane, front, back)
    }

    /// Takes out all numbers but those of the two leaves and of what the roots reach. The error is want of memory, and then
    /// the pool is as before.
    pub fn sweep(&mut self, alloc: Global, roots: &[TreeId]) -> Result<(), AllocError>
        requires live { (x : TreeId) → Contains roots.now x → IsLive self.old x }
        ensures live { OnOk result ((id : TreeId) → IsLive self.new id ↔ IsKept self.old roots.now id) }
        ensures kept { OnOk result ((id : TreeId) (t : Tree) → IsKept self.old roots.now id → StandsFor self.old id t → StandsFor self.new id t) }
        ensures trees { AreTrees self.new }
        ensures pool { IsPool self.new }
        ensures err { OnErr result (self.new ≡ self.old) }
    {
        let seen = reached(alloc, &self.slots, self.no, self.yes, roots)?;
        drop_others(&mut self.slots, &mut self.index, &seen);
        Ok(())
    }
}
