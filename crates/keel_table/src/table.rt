// A table that is open.
ghost use Rattle.std.specs.Prelude.{◌≡◌, ◌+◌, ◌<◌, ◌≤◌, ℕ, Some, None, true, false, List, [], length, take, slice_get, IfOk};
ghost use Rattle.std.specs.List.{AllByRecursion};
ghost use Rattle.keel_base.specs.declared.row.Row.{Row as ARow};
ghost use Rattle.keel_base.specs.Keys.{key_lt};
ghost use Rattle.keel_disk.specs.Seen.{IsQuiet};
ghost use Rattle.keel_table.specs.declared.index.BlockEntry.{BlockEntry as AnEntry};
ghost use Rattle.keel_table.specs.Answers.{Answers, BlockAnswers, ChecksDiffer, GetAnswers, fault_in};
ghost use Rattle.keel_table.specs.Blocks.{FitCovering, FitEntries, IsBelow};
ghost use Rattle.keel_table.specs.Fields.{in_order};
ghost use Rattle.keel_table.specs.Opening.{covering, last_key_of, nth_entry};
ghost use Rattle.keel_table.specs.Spelling.{rows_of};

use crate::TableFault;
use crate::block::{read_block, read_row};
use crate::index::{BlockEntries, BlockEntry, Footer};
use crate::reading::is_below;
use keel_base::{Row, Rows};
use keel_disk::Disk;
use std::alloc::Global;

/// A table whose footer and index were read. Its blocks are read as they are asked for, each with its tests.
#[derive(Debug, Drop)]
pub struct Table {
    pub(crate) number: u64,
    pub(crate) footer: Footer,
    pub(crate) entries: BlockEntries,
    ghost order: { in_order footer.index 0 None entries ≡ true },
    ghost counted: { length entries ≡ footer.blocks },
}

/// The last key of the last entry, and the empty key where there is none.
fn last_key_of(entries: &[BlockEntry]) -> &[u8]
    ensures { result.now ≡ last_key_of [] entries.now }
{
    match entries.last() {
        None => b"",
        Some(entry) => entry.last.as_slice(),
    }
}

/// How many entries have a last key below a key, where the last keys rise.
fn count_below(entries: &[BlockEntry], key: &[u8], index: u64) -> usize
    requires { in_order index 0 None entries.now ≡ true }
    ensures bound { result ≤ length entries.now }
    ensures below { (k : ℕ) (e : AnEntry) → k < result → Some e ≡ slice_get entries.now k → key_lt e.last key.now ≡ true }
    ensures from { (k : ℕ) (e : AnEntry) → result ≤ k → Some e ≡ slice_get entries.now k → key_lt e.last key.now ≡ false }
{
    let mut low = 0;
    let mut high = entries.len();
    'halving: while low < high {
        let middle = low + (high - low) / 2;
        if is_below(entries[middle].last.as_slice(), key) {
            low = middle + 1;
        } else {
            high = middle;
        }
    }
    low
}

impl Table {
    ghost use Rattle.keel_table.specs.Tables.{entries_of, number_of};

    /// How many blocks it has.
    pub fn blocks(&self) -> u32
        ensures { result ≡ length (entries_of self.now) }
    {
        self.footer.blocks
    }

    /// The rows of a block. It is tested for its check, then that its rows are whole, within their limits, and
    /// ascend, from over the last key of the block before up to the last key that the index tells. So much is known
    /// of them over any device, and `laws::blocks_ascend` says it of several blocks.
    pub fn block<D: Disk>(&self, alloc: Global, disk: &mut D, i: u32) -> Result<Rows, TableFault>
        requires { i < length (entries_of self.now) }
        ensures answer { BlockAnswers (nth_entry [] (entries_of self.now) i) (number_of self.now) (D.seen disk.old).told result }
        ensures fit { IfOk result (FitCovering (nth_entry [] (entries_of self.now) i)) }
        ensures differ { ChecksDiffer result }
        ensures quiet { IsQuiet (D.seen disk.old) (fault_in result) (D.seen disk.new) }
    {
        let entries = self.entries.as_slice();
        let before = last_key_of(&entries[..i as usize]);
        read_block(alloc, disk, self.number, before, &entries[i as usize])
    }

    /// The number of the first block that may have a key at or over this one, which is where a scan from the key
    /// begins: how many blocks there are, where all of the table is below the key.
    pub fn first_block(&self, key: &[u8]) -> u32
        ensures within { result ≤ length (entries_of self.now) }
        ensures before { (blocks : List (List ARow)) → FitEntries [] blocks (entries_of self.now) → AllByRecursion (IsBelow key.now) (rows_of (take result blocks)) }
        ensures at { (e : AnEntry) → Some e ≡ slice_get (entries_of self.now) result → key_lt e.last key.now ≡ false }
    {
        let below = count_below(self.entries.as_slice(), key, self.footer.index);
        let blocks = self.footer.blocks as usize;
        prove!(below <= blocks);
        below as u32
    }

    /// The row of a key. It reads the one block whose keys reach up to the key or over it, and none where the key is
    /// over all of the table.
    pub fn get<D: Disk>(
        &self,
        alloc: Global,
        disk: &mut D,
        key: &[u8],
    ) -> Result<Option<Row>, TableFault>
        ensures answer { GetAnswers (covering [] (entries_of self.now) key.now) key.now (number_of self.now) (D.seen disk.old).told result }
        ensures differ { ChecksDiffer result }
        ensures quiet { IsQuiet (D.seen disk.old) (fault_in result) (D.seen disk.new) }
    {
        let entries = self.entries.as_slice();
        let i = count_below(entries, key, self.footer.index);
        if entries.len() <= i {
            return Ok(None);
        }
        let before = last_key_of(&entries[..i]);
        read_row(alloc, disk, self.number, key, before, &entries[i])
    }
}
