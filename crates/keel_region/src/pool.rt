// Nodes in slots, whose room is taken first.
ghost use Rattle.std.specs.Prelude.{◌≡◌, ◌≢◌, ℕ, ◌+◌, ◌<◌, ◌≤◌, ◌^◌, length, OnOk, OnErr, Some, None, IsSome, is_some, count_by, vec_len, vec_capacity};
ghost use Rattle.keel_region.specs.Slots.{node_at, IsPool, KeepsNodes};

use crate::span::IndexEntry;
use keel_base::OutOfMemory;
use std::alloc::Global;
use std::marker::Model;

/// A place in a pool.
#[derive(Clone, Copy, Debug, PartialEq, Eq)]
pub struct Slot {
    pub place: usize,
}

/// A node of a search tree: its entry, the roots of its subtrees, and its height.
#[derive(Clone, Copy, Debug, PartialEq, Eq)]
pub struct Node {
    pub entry: IndexEntry,
    pub left: Option<Slot>,
    pub right: Option<Slot>,
    pub height: u8,
}

/// Nodes in slots. A slot that was taken isn't handed out again before it is given back.
#[derive(Debug, Drop)]
pub struct Pool {
    nodes: Vec<Option<Node>>,
    // The slots without a node, with room for all there are.
    free: Vec<usize>,
}

impl Model for Pool {
    ghost use Rattle.std.specs.Prelude.{◌≤◌, length, vec_len, vec_capacity};
    ghost use Rattle.keel_region.specs.Slots.{PoolShown, IsPool, IsRoomy};

    ghost Value = { PoolShown };

    ghost view = { λ p. record { slots = p.nodes.items; spare = length p.free.items } };

    ghost invariant = { λ p. IsRoomy p.nodes.items p.free.items (vec_capacity p.free) };
}

impl Pool {
    /// No slot is taken, and there is no room. It takes no memory yet.
    pub fn new(alloc: Global) -> Pool
        ensures nodes { (place : ℕ) → node_at result.slots place ≡ None }
        ensures spare { result.spare ≡ 0 }
        ensures length { length result.slots ≡ 0 }
    {
        Pool {
            nodes: Vec::new(alloc),
            free: Vec::new(alloc),
        }
    }

    /// Takes memory until `n` nodes have room. On want of memory all stays as it was.
    pub fn reserve(&mut self, n: usize) -> Result<(), OutOfMemory>
        ensures nodes { KeepsNodes self.old.slots self.new.slots }
        ensures ok { OnOk result (n ≤ self.new.spare) }
        ensures spare { self.old.spare ≤ self.new.spare }
        ensures err { OnErr result (self.new ≡ self.old) }
        ensures length { length self.new.slots + self.old.spare ≡ length self.old.slots + self.new.spare }
    {
        let more = n.saturating_sub(self.free.len());
        self.nodes.reserve(more)?;
        self.free
            .reserve(self.nodes.len() - self.free.len() + more)?;
        'adding: for _ in 0..more {
            add_slot(&mut self.nodes, &mut self.free);
        }
        Ok(())
    }

    /// Puts the node into a slot that isn't taken.
    pub fn take(&mut self, node: Node) -> Slot
        requires { 0 < self.old.spare }
        ensures free { node_at self.old.slots result.place ≡ None }
        ensures taken { node_at self.new.slots result.place ≡ Some node }
        ensures others { (place : ℕ) → place ≢ result.place → node_at self.new.slots place ≡ node_at self.old.slots place }
        ensures spare { self.new.spare + 1 ≡ self.old.spare }
        ensures length { length self.new.slots ≡ length self.old.slots }
    {
        let place = self.free[self.free.len() - 1];
        self.free.truncate(self.free.len() - 1);
        self.nodes[place] = Some(node);
        Slot { place }
    }

    /// How many slots are taken.
    pub fn taken(&self) -> usize
        ensures count { result + self.now.spare ≡ length self.now.slots }
        ensures nodes { result ≡ count_by is_some self.now.slots }
        ensures bound { result < 2 ^ 57 }
    {
        self.nodes.as_slice().len() - self.free.len()
    }

    /// The node of a slot, none where it isn't taken.
    pub fn get(&self, slot: Slot) -> Option<Node>
        ensures { result ≡ node_at self.now.slots slot.place }
    {
        match self.nodes.get(slot.place) {
            None => None,
            Some(node) => *node,
        }
    }

    /// Puts another node into a slot that is taken.
    pub fn put(&mut self, slot: Slot, node: Node)
        requires { IsSome (node_at self.old.slots slot.place) }
        ensures node { node_at self.new.slots slot.place ≡ Some node }
        ensures others { (place : ℕ) → place ≢ slot.place → node_at self.new.slots place ≡ node_at self.old.slots place }
        ensures spare { self.new.spare ≡ self.old.spare }
        ensures length { length self.new.slots ≡ length self.old.slots }
    {
        self.nodes[slot.place] = Some(node);
    }

    /// The node of a slot that is taken. The slot isn't taken any more.
    pub fn give_back(&mut self, slot: Slot) -> Node
        requires { IsSome (node_at self.old.slots slot.place) }
        ensures node { node_at self.old.slots slot.place ≡ Some result }
        ensures free { node_at self.new.slots slot.place ≡ None }
        ensures others { (place : ℕ) → place ≢ slot.place → node_at self.new.slots place ≡ node_at self.old.slots place }
        ensures spare { self.new.spare ≡ self.old.spare + 1 }
    {
        match self.nodes[slot.place] {
            Some(node) => {
                self.nodes[slot.place] = None;
                self.free.push_reserved(slot.place);
                node
            }
            None => unreachable!(),
        }
    }
}

/// One slot more, which isn't taken.
fn add_slot(nodes: &mut Vec<Option<Node>>, free: &mut Vec<usize>)
    requires pool { IsPool nodes.old.items free.old.items }
    requires nodes_room { vec_len nodes.old < vec_capacity nodes.old }
    requires free_room { vec_len free.old < vec_capacity free.old }
    ensures pool { IsPool nodes.new.items free.new.items }
    ensures keeps { KeepsNodes nodes.old.items nodes.new.items }
    ensures nodes_count { vec_len nodes.new ≡ vec_len nodes.old + 1 }
    ensures free_count { vec_len free.new ≡ vec_len free.old + 1 }
    ensures nodes_capacity { vec_capacity nodes.new ≡ vec_capacity nodes.old }
    ensures free_capacity { vec_capacity free.new ≡ vec_capacity free.old }
{
    free.push_reserved(nodes.len());
    nodes.push_reserved(None);
}
