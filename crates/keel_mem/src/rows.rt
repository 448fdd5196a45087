// Rows in order, one at a time.
ghost use Rattle.std.specs.Prelude.{◌≡◌};
ghost use Rattle.std.specs.Iterator.{YieldsFirstBy, item_count};
ghost use Rattle.keel_region.specs.Order.{AreInOrder};
ghost use Rattle.keel_region.specs.Spans.{AreHeld};
ghost use Rattle.keel_mem.specs.Shown.{rows_in};

use keel_base::Kind;
use keel_region::{Index, IndexEntry, Region};
use std::marker::Model;

/// A row, whose key and value stand in the memtable.
#[derive(Clone, Copy, Debug)]
pub struct MemRow<'a> {
    pub seq: u64,
    pub kind: Kind,
    pub key: &'a [u8],
    pub value: &'a [u8],
}

/// The rows that are still to come, which contracts see as a list.
#[derive(Debug, Drop)]
pub struct MemRows<'a> {
    region: &'a Region,
    index: &'a Index,
    // The entry of the next row, and how many rows are to come.
    next: Option<IndexEntry>,
    left: usize,
}

impl<'a> Model for MemRows<'a> {
    ghost use Rattle.std.specs.Prelude.{List};
    ghost use Rattle.keel_base.specs.declared.row.Row.{Row};
    ghost use Rattle.keel_mem.specs.Rest.{IsRest, rest_of};
    ghost use Rattle.keel_mem.specs.Shown.{rows_in};

    ghost Value = { List Row };

    ghost view = { λ r. rows_in r.region.now.bytes (rest_of r.index.now.entries r.left) };

    ghost invariant = { λ r. IsRest r.region.now.bytes r.index.now.entries r.next r.left };
}

impl<'a> MemRows<'a> {
    /// The rows of all entries of an index, whose bytes stand in the region.
    pub(crate) fn new(region: &'a Region, index: &'a Index) -> MemRows<'a>
        requires held { AreHeld region.now.bytes index.now.entries }
        requires order { AreInOrder region.now.bytes index.now.entries }
        ensures { result ≡ rows_in region.now.bytes index.now.entries }
    {
        MemRows {
            region,
            index,
            next: index.first(),
            left: index.len(),
        }
    }
}

impl<'a> Iterator for MemRows<'a> {
    type Item = MemRow<'a>;

    ghost use Rattle.keel_mem.specs.RowShown.{row_shown};

    ghost next_gives = { YieldsFirstBy row_shown (λ left. left) };

    ghost remaining = { item_count (λ left. left) };

    fn next(&mut self) -> Option<MemRow<'a>> {
        let first = self.next?;
        let row = MemRow {
            seq: first.seq,
            kind: first.kind,
            key: self.region.bytes(first.key),
            value: self.region.bytes(first.value),
        };
        self.next = self.index.after(self.region, &first);
        self.left -= 1;
        Some(row)
    }
}
