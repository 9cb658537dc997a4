ghost use Rattle.std.specs.Prelude.{◌≡◌, ◌≢◌, ◌↔◌, ℕ, None, Contains, IsTrue};
ghost use Rattle.slab.specs.Slab.{Updates};
ghost use Rattle.tree_pool.specs.declared.node.TreeId.{TreeId};
ghost use Rattle.tree_pool.specs.Pools.{slot_at};
ghost use Rattle.tree_pool.specs.Index.{IsIndexOf};

use crate::node::{PoolNode, Slot, TreeId};
use indexmap::{IndexMap, IndexSet};
use slab::Slab;

/// Takes a number out of a pool and of its index.
fn drop_slot(slots: &mut Slab<Slot>, index: &mut IndexMap<PoolNode, usize>, key: usize)
    requires agrees { IsIndexOf slots.old.slots index.old }
    ensures agrees { IsIndexOf slots.new.slots index.new }
    ensures updates { Updates slots.old slots.new key None }
{
    if let Some(slot) = slots.try_remove(key) {
        index.swap_remove(&slot.node);
    }
}

/// Whether the list has a number.
fn has(seen: &IndexSet<TreeId>, id: TreeId) -> bool
    ensures { IsTrue result ↔ Contains seen.now.keys id }
{
    seen.contains(&id)
}

/// Takes a number out if it is not in the list.
fn settle(
    slots: &mut Slab<Slot>,
    index: &mut IndexMap<PoolNode, usize>,
    seen: &IndexSet<TreeId>,
    id: TreeId,
)
    requires agrees { IsIndexOf slots.old.slots index.old }
    ensures agrees { IsIndexOf slots.new.slots index.new }
    ensures others { (k : ℕ) → k ≢ id.key → slot_at slots.new.slots k ≡ slot_at slots.old.slots k }
    ensures stay { Contains seen.now.keys id → slot_at slots.new.slots id.key ≡ slot_at slots.old.slots id.key }
    ensures gone { (Contains seen.now.keys id → ⊥) → slot_at slots.new.slots id.key ≡ None }
{
    if has(seen, id) {
        return;
    }
    drop_slot(slots, index, id.key);
}

/// Takes out all numbers that are not in the list.
pub fn drop_others(
    slots: &mut Slab<Slot>,
    index: &mut IndexMap<PoolNode, usize>,
    seen: &IndexSet<TreeId>,
)
    requires agrees { IsIndexOf slots.old.slots index.old }
    ensures agrees { IsIndexOf slots.new.slots index.new }
    ensures stay { (id : TreeId) → Contains seen.now.keys id → slot_at slots.new.slots id.key ≡ slot_at slots.old.slots id.key }
    ensures gone { (id : TreeId) → (Contains seen.now.keys id → ⊥) → slot_at slots.new.slots id.key ≡ None }
{
    for key in 0..slots.capacity() {
        settle(slots, index, seen, TreeId { key });
    }
}
