// The way down a tree to the place of a key.
ghost use Rattle.std.specs.Prelude.{◌≡◌, ◌+◌, ◌<◌, ◌≤◌, [], ◌∷◌, ◌++◌, length};
ghost use Rattle.keel_region.specs.Spans.{IsHeld};
ghost use Rattle.keel_region.specs.Trees.{HasTree, IsBalanced, height_of, tree_at};
ghost use Rattle.keel_region.specs.Turns.{greatest_height};
ghost use Rattle.keel_region.specs.Ways.{AddsWay};

use crate::pool::{Pool, Slot};
use crate::region::Region;
use crate::search::is_before;
use std::marker::Model;

/// Slots on a way down a tree, the root first. No balanced tree that memory holds is higher than there is room for.
#[derive(Debug, Drop)]
pub struct Path {
    slots: [Slot; 96],
    length: u8,
}

impl Model for Path {
    ghost use Rattle.std.specs.Prelude.{◌≤◌, List, take};
    ghost use Rattle.keel_region.specs.declared.pool.Slot.{Slot};

    ghost Value = { List Slot };

    ghost view = { λ p. take p.length p.slots };

    ghost invariant = { λ p. p.length ≤ 96 };
}

impl Path {
    /// No slots yet.
    pub(crate) fn new() -> Path
        ensures { result ≡ [] }
    {
        Path {
            slots: [Slot { place: 0 }; 96],
            length: 0,
        }
    }

    /// Adds a slot.
    pub(crate) fn push(&mut self, slot: Slot)
        requires { length self.old < greatest_height }
        ensures { self.new ≡ self.old ++ slot ∷ [] }
    {
        self.slots[usize::from(self.length)] = slot;
        self.length += 1;
    }

    /// The slots, the root first.
    pub fn slots(&self) -> &[Slot]
        ensures { result.now ≡ self.now }
    {
        &self.slots[..usize::from(self.length)]
    }
}

/// Adds the slots from this root on to the place of that key and sequence.
pub(crate) fn descend(
    pool: &Pool,
    region: &Region,
    root: Option<Slot>,
    key: &[u8],
    seq: u64,
    path: &mut Path,
)
    requires tree { HasTree (IsHeld region.now.bytes) pool.now.slots root }
    requires balanced { IsBalanced (tree_at pool.now.slots root) }
    requires room { length path.old + height_of (tree_at pool.now.slots root) ≤ greatest_height }
    ensures { AddsWay region.now.bytes key.now seq pool.now.slots root path.old path.new }
{
    match root {
        None => {}
        Some(slot) => match pool.get(slot) {
            None => unreachable!(),
            Some(node) => {
                path.push(slot);
                if is_before(region, &node.entry, key, Some(seq)) {
                    descend(pool, region, node.right, key, seq, path);
                } else {
                    descend(pool, region, node.left, key, seq, path);
                }
            }
        },
    }
}
