// Entries in order, whose room is taken first: a search tree in a pool.
ghost use Rattle.std.specs.Prelude.{◌≡◌, ℕ, ◌+◌, ◌<◌, ◌≤◌, ◌^◌, [], length, slice_get, find, Contains, OnOk, OnErr, Some, None};
ghost use Rattle.keel_region.specs.Indexes.{HasBalancedTree};
ghost use Rattle.keel_region.specs.Order.{AreInOrder, IsNew, IsPutIn, has_key};
ghost use Rattle.keel_region.specs.Slots.{node_at, KeepsNodes};
ghost use Rattle.keel_region.specs.Spans.{IsHeld, AreHeld};
ghost use Rattle.keel_region.specs.Trees.{height_at};
ghost use Rattle.keel_region.specs.Ways.{IsSearchWay};

use crate::path::{Path, descend};
use crate::pool::{Node, Pool, Slot};
use crate::region::Region;
use crate::span::IndexEntry;
use crate::tree::{behind, height, insert_below, leftmost, seek};
use keel_base::OutOfMemory;
use std::alloc::Global;
use std::marker::Model;

/// Entries by key, and of one key the greatest sequence first. The keys' bytes stand in a region, which the calls are given.
/// They stand in a balanced tree, so that a call that looks for a place takes time by the logarithm of their number.
#[derive(Debug, Drop)]
pub struct Index {
    pool: Pool,
    root: Option<Slot>,
}

impl Model for Index {
    ghost use Rattle.keel_region.specs.Shown.{IndexShown};
    ghost use Rattle.keel_region.specs.Indexes.{IsIndex};
    ghost use Rattle.keel_region.specs.Trees.{tree_at, walk};

    ghost Value = { IndexShown };

    ghost view = { λ i. record { entries = walk (tree_at i.pool.slots i.root); spare = i.pool.spare; root = i.root; slots = i.pool.slots } };

    ghost invariant = { λ i. IsIndex i.pool.slots i.pool.spare i.root };
}

impl Index {
    /// No entries and no room. It takes no memory yet.
    pub fn new(alloc: Global) -> Index
        ensures entries { result.entries ≡ [] }
        ensures spare { result.spare ≡ 0 }
        ensures root { result.root ≡ None }
    {
        Index {
            pool: Pool::new(alloc),
            root: None,
        }
    }

    /// Takes memory until `n` entries have room. On want of memory all stays as it was.
    pub fn reserve(&mut self, n: usize) -> Result<(), OutOfMemory>
        ensures entries { self.new.entries ≡ self.old.entries }
        ensures ok { OnOk result (n ≤ self.new.spare) }
        ensures spare { self.old.spare ≤ self.new.spare }
        ensures err { OnErr result (self.new.spare ≡ self.old.spare) }
        ensures root { self.new.root ≡ self.old.root }
        ensures nodes { KeepsNodes self.old.slots self.new.slots }
    {
        self.pool.reserve(n)?;
        Ok(())
    }

    /// Puts the entry in at its place.
    pub fn insert(&mut self, region: &Region, entry: IndexEntry)
        requires room { 0 < self.old.spare }
        requires held { AreHeld region.now.bytes self.old.entries }
        requires own { IsHeld region.now.bytes entry }
        requires order { AreInOrder region.now.bytes self.old.entries }
        requires fresh { IsNew region.now.bytes self.old.entries entry }
        ensures entries { IsPutIn self.old.entries self.new.entries entry }
        ensures order { AreInOrder region.now.bytes self.new.entries }
        ensures spare { self.new.spare + 1 ≡ self.old.spare }
    {
        let root = insert_below(&mut self.pool, region, self.root, entry);
        self.root = Some(root);
        // Its contract bounds the number of nodes, and so the height of the tree.
        let _ = self.pool.taken();
    }

    /// The newest entry of that key.
    pub fn find(&self, region: &Region, key: &[u8]) -> Option<IndexEntry>
        requires held { AreHeld region.now.bytes self.now.entries }
        requires order { AreInOrder region.now.bytes self.now.entries }
        ensures { result ≡ find (has_key region.now.bytes key.now) self.now.entries }
    {
        let entry = seek(&self.pool, region, self.root, key, None, None)?;
        if region.bytes(entry.key) == key {
            Some(entry)
        } else {
            None
        }
    }

    /// The entry at the front.
    pub fn first(&self) -> Option<IndexEntry>
        ensures { result ≡ slice_get self.now.entries 0 }
    {
        leftmost(&self.pool, self.root, None)
    }

    /// The entry behind one that is there.
    pub fn after(&self, region: &Region, entry: &IndexEntry) -> Option<IndexEntry>
        requires held { AreHeld region.now.bytes self.now.entries }
        requires order { AreInOrder region.now.bytes self.now.entries }
        requires there { Contains self.now.entries entry.now }
        ensures { (k : ℕ) → slice_get self.now.entries k ≡ Some entry.now → result ≡ slice_get self.now.entries (k + 1) }
    {
        behind(&self.pool, region, self.root, entry, None)
    }

    /// The slots on the way from the root to the place of that key and sequence. It takes no memory.
    pub fn path(&self, region: &Region, key: &[u8], seq: u64) -> Path
        requires held { AreHeld region.now.bytes self.now.entries }
        ensures way { IsSearchWay region.now.bytes key.now seq self.now.slots self.now.root result }
        ensures low { length result ≤ height_at self.now.slots self.now.root }
    {
        let mut path = Path::new();
        descend(&self.pool, region, self.root, key, seq, &mut path);
        path
    }

    /// The slot of the tree's root, none where there are no entries.
    pub fn root(&self) -> Option<Slot>
        ensures { result ≡ self.now.root }
    {
        self.root
    }

    /// The node of a slot, none where it isn't taken.
    pub fn node(&self, slot: Slot) -> Option<Node>
        ensures { result ≡ node_at self.now.slots slot.place }
    {
        self.pool.get(slot)
    }

    /// The height of the tree: how many nodes its longest way has.
    pub fn height(&self) -> u8
        ensures height { result ≡ height_at self.now.slots self.now.root }
        ensures tree { HasBalancedTree self.now }
    {
        height(&self.pool, self.root)
    }

    /// The number of entries.
    pub fn len(&self) -> usize
        ensures count { result ≡ length self.now.entries }
        ensures bound { result < 2 ^ 57 }
    {
        self.pool.taken()
    }
}
