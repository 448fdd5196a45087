// A search tree whose nodes lie in a pool, and which is kept in balance.
ghost use Rattle.std.specs.Prelude.{◌≡◌, ℕ, ◌+◌, ◌<◌, length, true, false, Some, None, IsSome, IfSome, IfNone};
ghost use Rattle.keel_region.specs.Order.{entry_before, AreInOrder, IsNew};
ghost use Rattle.keel_region.specs.Slots.{node_at};
ghost use Rattle.keel_region.specs.Spans.{bytes_at, IsHeld};
ghost use Rattle.keel_region.specs.Trees.{Tree, IsStored, root_of, walk, node_below, height_at, Joins, Rebuilds, Makes, KeepsTaken, HasTree, put_in, failing_or, is_up_to};
ghost use Rattle.keel_region.specs.Turns.{IsOver, RaisesLeft, RaisesRight, LeansLeft, LeansRight, Evens, Grows};

use crate::pool::{Node, Pool, Slot};
use crate::region::Region;
use crate::search::is_before;
use crate::span::IndexEntry;

/// The height of the tree below the root.
pub(crate) fn height(pool: &Pool, root: Option<Slot>) -> u8
    ensures { result ≡ height_at pool.now.slots root }
{
    match root {
        None => 0,
        Some(slot) => match pool.get(slot) {
            None => 0,
            Some(node) => node.height,
        },
    }
}

/// Puts the node into its slot, with the height that its subtrees give it.
fn write(pool: &mut Pool, slot: Slot, node: Node)
    requires { IsSome (node_at pool.old.slots slot.place) }
    ensures joins { Joins IsOver pool.old.slots pool.new.slots slot.place node slot }
    ensures taken { KeepsTaken pool.old.slots pool.new.slots }
    ensures spare { pool.new.spare ≡ pool.old.spare }
    ensures length { length pool.new.slots ≡ length pool.old.slots }
{
    let below = height(pool, node.left).max(height(pool, node.right));
    pool.put(
        slot,
        Node {
            entry: node.entry,
            left: node.left,
            right: node.right,
            height: below.saturating_add(1),
        },
    );
}

/// A child's slot with its node, where there is one.
fn child_at(pool: &Pool, child: Option<Slot>) -> Option<(Slot, Node)>
    ensures some { IfSome result (λ x. (child ≡ Some x.0) × (node_at pool.now.slots x.0.place ≡ Some x.1)) }
    ensures none { IfNone result (node_below pool.now.slots child ≡ None) }
{
    let slot = child?;
    Some((slot, pool.get(slot)?))
}

/// Writes the node with its left child in its place, below which it is then on the right.
fn raise_left(pool: &mut Pool, slot: Slot, node: Node) -> Slot
    requires { IsSome (node_at pool.old.slots slot.place) }
    ensures joins { Joins RaisesLeft pool.old.slots pool.new.slots slot.place node result }
    ensures taken { KeepsTaken pool.old.slots pool.new.slots }
    ensures spare { pool.new.spare ≡ pool.old.spare }
    ensures length { length pool.new.slots ≡ length pool.old.slots }
{
    let Some((child, lower)) = child_at(pool, node.left) else {
        write(pool, slot, node);
        return slot;
    };
    let left = lower.right;
    write(pool, slot, Node { left, ..node });
    let right = Some(slot);
    write(pool, child, Node { right, ..lower });
    child
}

/// Writes the node with its right child in its place, below which it is then on the left.
fn raise_right(pool: &mut Pool, slot: Slot, node: Node) -> Slot
    requires { IsSome (node_at pool.old.slots slot.place) }
    ensures joins { Joins RaisesRight pool.old.slots pool.new.slots slot.place node result }
    ensures taken { KeepsTaken pool.old.slots pool.new.slots }
    ensures spare { pool.new.spare ≡ pool.old.spare }
    ensures length { length pool.new.slots ≡ length pool.old.slots }
{
    let Some((child, lower)) = child_at(pool, node.right) else {
        write(pool, slot, node);
        return slot;
    };
    let right = lower.left;
    write(pool, slot, Node { right, ..node });
    let left = Some(slot);
    write(pool, child, Node { left, ..lower });
    child
}

/// The tree below the root, turned so that it isn't higher on the right.
fn lean_left(pool: &mut Pool, root: Option<Slot>) -> Option<Slot>
    ensures turns { Rebuilds LeansLeft pool.old.slots pool.new.slots root result }
    ensures taken { KeepsTaken pool.old.slots pool.new.slots }
    ensures spare { pool.new.spare ≡ pool.old.spare }
    ensures length { length pool.new.slots ≡ length pool.old.slots }
{
    match root {
        None => None,
        Some(slot) => match pool.get(slot) {
            None => root,
            Some(node) => {
                if height(pool, node.left) < height(pool, node.right) {
                    Some(raise_right(pool, slot, node))
                } else {
                    root
                }
            }
        },
    }
}

/// The tree below the root, turned so that it isn't higher on the left.
fn lean_right(pool: &mut Pool, root: Option<Slot>) -> Option<Slot>
    ensures turns { Rebuilds LeansRight pool.old.slots pool.new.slots root result }
    ensures taken { KeepsTaken pool.old.slots pool.new.slots }
    ensures spare { pool.new.spare ≡ pool.old.spare }
    ensures length { length pool.new.slots ≡ length pool.old.slots }
{
    match root {
        None => None,
        Some(slot) => match pool.get(slot) {
            None => root,
            Some(node) => {
                if height(pool, node.right) < height(pool, node.left) {
                    Some(raise_left(pool, slot, node))
                } else {
                    root
                }
            }
        },
    }
}

/// Writes the node, and turns the tree where one subtree is higher than the other by more than one.
fn balance(pool: &mut Pool, slot: Slot, node: Node) -> Slot
    requires { IsSome (node_at pool.old.slots slot.place) }
    ensures joins { Joins Evens pool.old.slots pool.new.slots slot.place node result }
    ensures taken { KeepsTaken pool.old.slots pool.new.slots }
    ensures spare { pool.new.spare ≡ pool.old.spare }
    ensures length { length pool.new.slots ≡ length pool.old.slots }
{
    let left = height(pool, node.left);
    let right = height(pool, node.right);
    if left > right.saturating_add(1) {
        let left = lean_left(pool, node.left);
        raise_left(pool, slot, Node { left, ..node })
    } else if right > left.saturating_add(1) {
        let right = lean_right(pool, node.right);
        raise_right(pool, slot, Node { right, ..node })
    } else {
        write(pool, slot, node);
        slot
    }
}

/// Whether a child keeps its slot and its height, so that its parent's node stays as it is.
fn is_unmoved(pool: &Pool, child: Option<Slot>, next: Slot, before: u8) -> bool
    ensures slot { result ≡ true → child ≡ Some next }
    ensures height { result ≡ true → height_at pool.now.slots child ≡ before }
{
    child == Some(next) && height(pool, child) == before
}

/// Puts the entry in at its place in the tree below the root, and gives the new root.
pub(crate) fn insert_below(
    pool: &mut Pool,
    region: &Region,
    root: Option<Slot>,
    entry: IndexEntry,
) -> Slot
    requires room { 0 < pool.old.spare }
    requires tree { HasTree (IsHeld region.now.bytes) pool.old.slots root }
    requires own { IsHeld region.now.bytes entry }
    ensures puts { (tree : Tree) → IsStored pool.old.slots tree → root_of tree ≡ root → AreInOrder region.now.bytes (walk tree) → IsNew region.now.bytes (walk tree) entry → Makes (Grows tree) pool.old.slots pool.new.slots (put_in (entry_before region.now.bytes (bytes_at region.now.bytes entry.key) (Some entry.seq)) entry (walk tree)) (Some result) }
    ensures taken { KeepsTaken pool.old.slots pool.new.slots }
    ensures spare { pool.new.spare + 1 ≡ pool.old.spare }
    ensures length { length pool.new.slots ≡ length pool.old.slots }
{
    match root {
        None => pool.take(Node {
            entry,
            left: None,
            right: None,
            height: 1,
        }),
        Some(slot) => match pool.get(slot) {
            None => unreachable!(),
            Some(node) => {
                if is_before(
                    region,
                    &node.entry,
                    region.bytes(entry.key),
                    Some(entry.seq),
                ) {
                    let before = height(pool, node.right);
                    let right = insert_below(pool, region, node.right, entry);
                    if is_unmoved(pool, node.right, right, before) {
                        return slot;
                    }
                    balance(
                        pool,
                        slot,
                        Node {
                            right: Some(right),
                            ..node
                        },
                    )
                } else {
                    let before = height(pool, node.left);
                    let left = insert_below(pool, region, node.left, entry);
                    if is_unmoved(pool, node.left, left, before) {
                        return slot;
                    }
                    balance(
                        pool,
                        slot,
                        Node {
                            left: Some(left),
                            ..node
                        },
                    )
                }
            }
        },
    }
}

/// The leftmost entry below the root, or `best` where there is none.
pub(crate) fn leftmost(
    pool: &Pool,
    root: Option<Slot>,
    best: Option<IndexEntry>,
) -> Option<IndexEntry>
    requires { HasTree (λ entry. Unit {0}) pool.now.slots root }
    ensures { (tree : Tree) → IsStored pool.now.slots tree → root_of tree ≡ root → result ≡ failing_or (λ entry. false) (walk tree) best }
{
    match root {
        None => best,
        Some(slot) => match pool.get(slot) {
            None => unreachable!(),
            Some(node) => leftmost(pool, node.left, Some(node.entry)),
        },
    }
}

/// The first entry below the root that doesn't come before the key at that sequence, or `best` where all do.
pub(crate) fn seek(
    pool: &Pool,
    region: &Region,
    root: Option<Slot>,
    key: &[u8],
    seq: Option<u64>,
    best: Option<IndexEntry>,
) -> Option<IndexEntry>
    requires { HasTree (IsHeld region.now.bytes) pool.now.slots root }
    ensures { (tree : Tree) → IsStored pool.now.slots tree → root_of tree ≡ root → AreInOrder region.now.bytes (walk tree) → result ≡ failing_or (entry_before region.now.bytes key.now seq) (walk tree) best }
{
    match root {
        None => best,
        Some(slot) => match pool.get(slot) {
            None => unreachable!(),
            Some(node) => {
                if is_before(region, &node.entry, key, seq) {
                    seek(pool, region, node.right, key, seq, best)
                } else {
                    seek(pool, region, node.left, key, seq, Some(node.entry))
                }
            }
        },
    }
}

/// The first entry below the root that comes behind this one, or `best` where none does.
pub(crate) fn behind(
    pool: &Pool,
    region: &Region,
    root: Option<Slot>,
    entry: &IndexEntry,
    best: Option<IndexEntry>,
) -> Option<IndexEntry>
    requires tree { HasTree (IsHeld region.now.bytes) pool.now.slots root }
    requires own { IsHeld region.now.bytes entry.now }
    ensures { (tree : Tree) → IsStored pool.now.slots tree → root_of tree ≡ root → AreInOrder region.now.bytes (walk tree) → result ≡ failing_or (is_up_to region.now.bytes entry.now) (walk tree) best }
{
    match root {
        None => best,
        Some(slot) => match pool.get(slot) {
            None => unreachable!(),
            Some(node) => {
                if is_before(
                    region,
                    entry,
                    region.bytes(node.entry.key),
                    Some(node.entry.seq),
                ) {
                    behind(pool, region, node.left, entry, Some(node.entry))
                } else {
                    behind(pool, region, node.right, entry, best)
                }
            }
        },
    }
}
