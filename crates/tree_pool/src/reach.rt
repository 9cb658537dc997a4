ghost use Rattle.std.specs.Prelude.{◌≡◌, ◌<◌, ◌⊎◌, ◌↔◌, ℕ, Bool, length, slice_get, Some, Contains, false, true, IfOk, OnOk};
ghost use Rattle.tree_pool.specs.declared.node.TreeId.{TreeId};
ghost use Rattle.tree_pool.specs.declared.node.PoolNode.TheVariants.{Leaf};
ghost use Rattle.tree_pool.specs.Pools.{IsLive, IsPool, node_at};
ghost use Rattle.tree_pool.specs.Kept.{IsChild, ReachedIn, IsKept, IsNoted, IsOnce};

use crate::node::{PoolNode, Slot, TreeId};
use indexmap::IndexSet;
use slab::Slab;
use std::alloc::{AllocError, Global};

/// Puts a number at the end of the list, if it is not there.
fn note(seen: &mut IndexSet<TreeId>, id: TreeId) -> Result<(), AllocError>
    ensures noted { OnOk result (IsNoted seen.old.keys seen.new.keys id) }
{
    seen.insert(id)?;
    Ok(())
}

/// How many numbers the list has; none stands twice.
fn size(seen: &IndexSet<TreeId>) -> usize
    ensures value { result ≡ length seen.now.keys }
    ensures once { IsOnce seen.now.keys }
{
    seen.len()
}

/// The top of the tree of a live number.
fn node_of(slots: &Slab<Slot>, id: TreeId) -> PoolNode
    requires live { IsLive slots.now.slots id }
    ensures { node_at slots.now.slots id ≡ Some result }
{
    match slots.get(id.key) {
        Some(slot) => slot.node,
        None => unreachable!(),
    }
}

/// The number at a place of the list.
fn number_at(seen: &IndexSet<TreeId>, at: usize) -> TreeId
    requires within { at < length seen.now.keys }
    ensures value { slice_get seen.now.keys at ≡ Some result }
{
    match seen.get_index(at) {
        Some(id) => *id,
        None => unreachable!(),
    }
}

/// Notes the children of a live number.
fn note_children(
    slots: &Slab<Slot>,
    seen: &mut IndexSet<TreeId>,
    id: TreeId,
) -> Result<(), AllocError>
    requires live { IsLive slots.now.slots id }
    ensures has { OnOk result ((child : TreeId) → IsChild slots.now.slots id child → Contains seen.new.keys child) }
    ensures only { OnOk result ((x : TreeId) → Contains seen.new.keys x → Contains seen.old.keys x ⊎ IsChild slots.now.slots id x) }
    ensures kept { OnOk result ((x : TreeId) → Contains seen.old.keys x → Contains seen.new.keys x) }
    ensures places { OnOk result ((k : ℕ) (x : TreeId) → slice_get seen.old.keys k ≡ Some x → slice_get seen.new.keys k ≡ Some x) }
{
    match node_of(slots, id) {
        PoolNode::Leaf(_) => {}
        PoolNode::Node { front, back, .. } => {
            note(seen, front)?;
            note(seen, back)?;
        }
    }
    Ok(())
}

/// Notes all that the numbers of the list reach.
fn close(slots: &Slab<Slot>, seen: &mut IndexSet<TreeId>) -> Result<(), AllocError>
    requires pool { IsPool slots.now.slots }
    requires live { (x : TreeId) → Contains seen.old.keys x → IsLive slots.now.slots x }
    ensures kept { OnOk result ((x : TreeId) → Contains seen.old.keys x → Contains seen.new.keys x) }
    ensures closed { OnOk result ((x child : TreeId) → Contains seen.new.keys x → IsChild slots.now.slots x child → Contains seen.new.keys child) }
    ensures sound { OnOk result ((x : TreeId) → Contains seen.new.keys x → (n : ℕ) × ReachedIn slots.now.slots (Contains seen.old.keys) n x) }
{
    let mut at = 0;
    while at < size(seen) {
        let id = number_at(seen, at);
        note_children(slots, seen, id)?;
        at += 1;
    }
    Ok(())
}

/// The list of the two leaves and the roots.
fn begin(
    alloc: Global,
    no: TreeId,
    yes: TreeId,
    roots: &[TreeId],
) -> Result<IndexSet<TreeId>, AllocError>
    ensures no { IfOk result (λ seen. Contains seen.keys no) }
    ensures yes { IfOk result (λ seen. Contains seen.keys yes) }
    ensures roots { IfOk result (λ seen. (x : TreeId) → Contains roots.now x → Contains seen.keys x) }
    ensures only { IfOk result (λ seen. (x : TreeId) → Contains seen.keys x → (x ≡ no) ⊎ ((x ≡ yes) ⊎ Contains roots.now x)) }
{
    let mut seen = IndexSet::new(alloc);
    note(&mut seen, no)?;
    note(&mut seen, yes)?;
    for root in roots {
        note(&mut seen, *root)?;
    }
    Ok(seen)
}

/// The list of the two leaves and of what the roots reach.
pub fn reached(
    alloc: Global,
    slots: &Slab<Slot>,
    no: TreeId,
    yes: TreeId,
    roots: &[TreeId],
) -> Result<IndexSet<TreeId>, AllocError>
    requires pool { IsPool slots.now.slots }
    requires no_leaf { node_at slots.now.slots no ≡ Some (Leaf false) }
    requires yes_leaf { node_at slots.now.slots yes ≡ Some (Leaf true) }
    requires live { (x : TreeId) → Contains roots.now x → IsLive slots.now.slots x }
    ensures kept { IfOk result (λ seen. (x : TreeId) → Contains seen.keys x ↔ IsKept slots.now.slots roots.now x) }
{
    let mut seen = begin(alloc, no, yes, roots)?;
    close(slots, &mut seen)?;
    Ok(seen)
}
