// The memtable.
ghost use Rattle.std.specs.Prelude.{◌≡◌, ◌↔◌, ◌+◌, ◌*◌, ◌<◌, ◌≤◌, ◌^◌, [], ◌∷◌, ◌++◌, length, All, IsTrue, OnOk, OnErr};
ghost use Rattle.std.specs.List.{AllByRecursion};
ghost use Rattle.std.specs.List.Sorted.{IsPermutation};
ghost use Rattle.keel_base.specs.Weight.{IsWithinLimits};
ghost use Rattle.keel_base.specs.Rows.{op_row, op_rows, newest, IsRow};
ghost use Rattle.keel_mem.specs.Finding.{Finds};
ghost use Rattle.keel_mem.specs.Needs.{op_bytes, bytes_of};
ghost use Rattle.keel_mem.specs.RowOrder.{AreInOrder};
ghost use Rattle.keel_mem.specs.Totals.{most_weight, weight_of, least_seq, greatest_seq, first_of};

use crate::found::Found;
use crate::rows::MemRows;
use crate::sizes::ops_size;
use keel_base::{Batch, Kind, LAST_NUMBER, MOST_OPS, Op, OutOfMemory};
use keel_region::{Index, IndexEntry, Region};
use std::alloc::Global;
use std::marker::Model;

/// The most that a memtable may weigh.
pub const MAX_MEM_WEIGHT: u64 = 72_057_594_037_927_936;

/// Rows of batches, with room that was reserved for more.
#[derive(Debug, Drop)]
pub struct Mem {
    region: Region,
    index: Index,
    free_bytes: usize,
    free_entries: usize,
    first: u64,
    last: u64,
}

impl Model for Mem {
    ghost use Rattle.keel_mem.specs.Shown.{MemShown, rows_by_arrival};
    ghost use Rattle.keel_mem.specs.Sound.{HoldsRows};

    ghost Value = { MemShown };

    ghost view = { λ m. record { rows = rows_by_arrival m.region.bytes m.index.entries; bytes = m.free_bytes; entries = m.free_entries } };

    ghost invariant = { λ m. HoldsRows m.region m.index m.free_bytes m.free_entries m.first m.last };
}

impl Mem {
    /// No rows and no room. It takes no memory yet.
    pub fn new(alloc: Global) -> Mem
        ensures rows { result.rows ≡ [] }
        ensures bytes { result.bytes ≡ 0 }
        ensures entries { result.entries ≡ 0 }
    {
        Mem {
            region: Region::new(alloc),
            index: Index::new(alloc),
            free_bytes: 0,
            free_entries: 0,
            first: 0,
            last: 0,
        }
    }

    /// Takes the memory that the batch needs, beside what was reserved before. Want of memory leaves all as it was, and
    /// is also the answer where the rows would weigh more than `MAX_MEM_WEIGHT`.
    pub fn reserve(&mut self, batch: &Batch) -> Result<(), OutOfMemory>
        requires limits { AllByRecursion IsWithinLimits batch.now.ops }
        requires few { length batch.now.ops ≤ MOST_OPS }
        ensures rows { self.new.rows ≡ self.old.rows }
        ensures bytes { OnOk result (self.new.bytes ≡ self.old.bytes + bytes_of batch.now.ops) }
        ensures entries { OnOk result (self.new.entries ≡ self.old.entries + length batch.now.ops) }
        ensures err { OnErr result (self.new ≡ self.old) }
    {
        self.reserve_ops(batch.ops.as_slice())
    }

    /// Puts the rows of a batch for which room was reserved, numbered from `seq` on.
    pub fn put_reserved(&mut self, seq: u64, batch: &Batch)
        requires limits { AllByRecursion IsWithinLimits batch.now.ops }
        requires bytes { bytes_of batch.now.ops ≤ self.old.bytes }
        requires entries { length batch.now.ops ≤ self.old.entries }
        requires above { All (λ row. row.seq < seq) self.old.rows }
        requires last { seq + length batch.now.ops ≤ LAST_NUMBER + 1 }
        ensures rows { self.new.rows ≡ self.old.rows ++ op_rows seq batch.now.ops }
        ensures bytes { self.new.bytes + bytes_of batch.now.ops ≡ self.old.bytes }
        ensures entries { self.new.entries + length batch.now.ops ≡ self.old.entries }
    {
        self.put_ops(seq, batch.ops.as_slice());
    }

    /// Takes the memory that some ops need, as `reserve` does for a batch.
    pub fn reserve_ops(&mut self, ops: &[Op]) -> Result<(), OutOfMemory>
        requires limits { AllByRecursion IsWithinLimits ops.now }
        requires few { length ops.now ≤ MOST_OPS }
        ensures rows { self.new.rows ≡ self.old.rows }
        ensures bytes { OnOk result (self.new.bytes ≡ self.old.bytes + bytes_of ops.now) }
        ensures entries { OnOk result (self.new.entries ≡ self.old.entries + length ops.now) }
        ensures err { OnErr result (self.new ≡ self.old) }
    {
        let bytes = self
            .free_bytes
            .checked_add(ops_size(ops))
            .ok_or(OutOfMemory)?;
        let entries = self.free_entries.checked_add(ops.len()).ok_or(OutOfMemory)?;
        if !self.has_weight_for(bytes, entries) {
            return Err(OutOfMemory);
        }
        self.region.reserve(bytes)?;
        self.index.reserve(entries)?;
        self.free_bytes = bytes;
        self.free_entries = entries;
        Ok(())
    }

    // Whether rows of so many bytes and so many entries weigh no more than is left.
    fn has_weight_for(&self, bytes: usize, entries: usize) -> bool
        ensures { IsTrue result ↔ (weight_of self.now.rows + (16 * entries + bytes) ≤ most_weight) }
    {
        let left = MAX_MEM_WEIGHT - self.weight();
        let bytes = bytes as u64;
        bytes <= left && entries as u64 <= (left - bytes) / 16
    }

    /// Puts the rows of some ops for which room was reserved, as `put_reserved` does for a batch.
    pub fn put_ops(&mut self, seq: u64, ops: &[Op])
        requires limits { AllByRecursion IsWithinLimits ops.now }
        requires bytes { bytes_of ops.now ≤ self.old.bytes }
        requires entries { length ops.now ≤ self.old.entries }
        requires above { All (λ row. row.seq < seq) self.old.rows }
        requires last { seq + length ops.now ≤ LAST_NUMBER + 1 }
        ensures rows { self.new.rows ≡ self.old.rows ++ op_rows seq ops.now }
        ensures bytes { self.new.bytes + bytes_of ops.now ≡ self.old.bytes }
        ensures entries { self.new.entries + length ops.now ≡ self.old.entries }
    {
        let mut next = seq;
        for op in ops {
            self.put_op(next, op);
            next += 1;
        }
    }

    fn put_op(&mut self, seq: u64, op: &Op)
        requires bytes { op_bytes op.now ≤ self.old.bytes }
        requires entries { 0 < self.old.entries }
        requires limits { IsWithinLimits op.now }
        requires above { All (λ row. row.seq < seq) self.old.rows }
        requires within { seq ≤ LAST_NUMBER }
        ensures rows { self.new.rows ≡ self.old.rows ++ op_row seq op.now ∷ [] }
        ensures bytes { self.new.bytes + op_bytes op.now ≡ self.old.bytes }
        ensures entries { self.new.entries + 1 ≡ self.old.entries }
    {
        match op {
            Op::Put { key, value } => self.put(seq, Kind::Put, key.as_slice(), value.as_slice()),
            Op::Del { key } => self.put(seq, Kind::Del, key.as_slice(), &[]),
        }
    }

    fn put(&mut self, seq: u64, kind: Kind, key: &[u8], value: &[u8])
        requires bytes { length key.now + length value.now ≤ self.old.bytes }
        requires entries { 0 < self.old.entries }
        requires limits { IsRow (record { seq = seq; kind = kind; key = key.now; value = value.now }) }
        requires above { All (λ row. row.seq < seq) self.old.rows }
        requires within { seq ≤ LAST_NUMBER }
        ensures rows { self.new.rows ≡ self.old.rows ++ record { seq = seq; kind = kind; key = key.now; value = value.now } ∷ [] }
        ensures bytes { self.new.bytes + (length key.now + length value.now) ≡ self.old.bytes }
        ensures entries { self.new.entries + 1 ≡ self.old.entries }
    {
        self.first = self.first_behind(seq);
        self.last = seq;
        self.free_bytes -= key.len() + value.len();
        self.free_entries -= 1;
        let key = self.region.place(key);
        let value = self.region.place(value);
        self.index.insert(
            &self.region,
            IndexEntry {
                seq,
                kind,
                key,
                value,
            },
        );
    }

    // The least sequence number behind a row of that number, which is over every one here.
    fn first_behind(&self, seq: u64) -> u64
        requires { All (λ row. row.seq < seq) self.now.rows }
        ensures { result ≡ first_of self.now.rows seq }
    {
        if self.index.len() == 0 {
            seq
        } else {
            self.first
        }
    }

    /// The newest row of the key. None exactly where no row has it.
    pub fn get(&self, key: &[u8]) -> Option<Found<'_>>
        ensures { Finds (newest key.now self.now.rows) result }
    {
        let entry = self.index.find(&self.region, key)?;
        Some(Found {
            seq: entry.seq,
            kind: entry.kind,
            value: self.region.bytes(entry.value),
        })
    }

    /// All rows by key, and of one key the newest first.
    pub fn rows(&self) -> MemRows<'_>
        ensures order { AreInOrder result }
        ensures same { IsPermutation self.now.rows result }
        ensures limits { All IsRow result }
    {
        MemRows::new(&self.region, &self.index)
    }

    /// What the rows weigh: the bytes of their keys and values, and 16 each.
    pub fn weight(&self) -> u64
        ensures value { result ≡ weight_of self.now.rows }
        ensures bound { result ≤ most_weight }
    {
        16 * self.index.len() as u64 + self.region.len() as u64
    }

    /// The least sequence number, or 0 where there is no row.
    pub fn first(&self) -> u64
        ensures { result ≡ least_seq self.now.rows }
    {
        self.first
    }

    /// The greatest sequence number, or 0 where there is no row.
    pub fn last(&self) -> u64
        ensures value { result ≡ greatest_seq self.now.rows }
        ensures bound { result ≤ LAST_NUMBER }
    {
        self.last
    }
}
