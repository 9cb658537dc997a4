ghost use Rattle.std.specs.Prelude.{◌≡◌, suc, Some, None, IfOk, OnOk, OnErr};
ghost use Rattle.indexmap.specs.IndexMap.{get};
ghost use Rattle.tree_pool.specs.Pools.{live_count, node_at, KeepsNodes, AddsOnly, IsBuilt, IsPool};
ghost use Rattle.tree_pool.specs.Index.{node_eq, IsIndexOf};

use crate::node::{PoolNode, Slot, TreeId};
use indexmap::IndexMap;
use slab::Slab;
use std::alloc::AllocError;

/// The number that the index has for a node.
pub fn find(index: &IndexMap<PoolNode, usize>, node: PoolNode) -> Option<usize>
    ensures { result ≡ get node_eq index.now node }
{
    index.get(&node).copied()
}

/// Puts a node that has no number under a new one. The error is want of memory, and then all is as before.
pub fn add_slot(
    slots: &mut Slab<Slot>,
    index: &mut IndexMap<PoolNode, usize>,
    slot: Slot,
) -> Result<TreeId, AllocError>
    requires pool { IsPool slots.old.slots }
    requires agrees { IsIndexOf slots.old.slots index.old }
    requires absent { get node_eq index.old slot.node ≡ None }
    requires built { IsBuilt slots.old.slots slot.rank slot.node }
    ensures pool { IsPool slots.new.slots }
    ensures agrees { IsIndexOf slots.new.slots index.new }
    ensures kept { KeepsNodes slots.old.slots slots.new.slots }
    ensures node { IfOk result (λ id. node_at slots.new.slots id ≡ Some slot.node) }
    ensures only { IfOk result (AddsOnly slots.old.slots slots.new.slots) }
    ensures count { OnOk result (live_count slots.new.slots ≡ suc (live_count slots.old.slots)) }
    ensures err { OnErr result (slots.new.slots ≡ slots.old.slots) }
{
    slots.reserve(1)?;
    let key = slots.vacant_key();
    index.insert(slot.node, key)?;
    let key = slots.insert_reserved(slot);
    Ok(TreeId { key })
}
