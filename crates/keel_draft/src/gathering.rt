// The rows of a memtable on their way into a table.
ghost use Rattle.std.specs.Prelude.{◌≡◌, ℕ, ◌∷◌, ◌++◌, List, [], true, length, IfOk, OnOk};
ghost use Rattle.keel_base.specs.declared.row.Row.{Row as ARow};
ghost use Rattle.keel_base.specs.Keys.{key_lt};
ghost use Rattle.keel_base.specs.Rows.{IsRow};
ghost use Rattle.keel_mem.specs.RowShown.{row_shown};
ghost use Rattle.keel_table.specs.Building.{key_before};
ghost use Rattle.keel_draft.specs.Gathering.{GathersNewest, HasGathered};

use keel_base::{Bytes, OutOfMemory, Row};
use keel_mem::{Mem, MemRow};
use keel_table::Builder;
use std::alloc::Global;
use std::cmp::Ordering;

/// The bytes of the blocks that are closed, and the least key, where a row was added.
#[derive(Debug, Drop)]
pub struct Gathering {
    pub builder: Builder,
    pub bytes: Bytes,
    pub least: Bytes,
}

impl Gathering {
    fn new(alloc: Global, first: u64, last: u64) -> Result<Gathering, OutOfMemory>
        ensures { IfOk result (HasGathered first last []) }
    {
        Ok(Gathering {
            builder: Builder::new(alloc, first, last)?,
            bytes: Bytes::new(alloc),
            least: Bytes::new(alloc),
        })
    }

    // Whether the key is over those of all rows that were added.
    fn is_below(&self, key: &[u8]) -> bool
        ensures { result ≡ key_lt (key_before self.now.builder) key.now }
    {
        self.builder.last_key().cmp(key) == Ordering::Less
    }

    // Adds a row behind the others. After a refusal nothing is said of what was gathered.
    fn add(&mut self, alloc: Global, row: MemRow<'_>) -> Result<(), OutOfMemory>
        requires is_row { IsRow (row_shown row) }
        requires over { key_lt (key_before self.old.builder) row.key.now ≡ true }
        ensures { OnOk result ((first last : ℕ) (rows : List ARow) → HasGathered first last rows self.old
            → HasGathered first last (rows ++ row_shown row.entry ∷ []) self.new) }
    {
        if self.least.len() == 0 {
            self.least = Bytes::from_slice(alloc, row.key)?;
        }
        let row = copied(alloc, row)?;
        if let Some(piece) = self.builder.add(alloc, &row)? {
            self.bytes.extend(piece.as_slice())?;
        }
        Ok(())
    }
}

fn copied(alloc: Global, row: MemRow<'_>) -> Result<Row, OutOfMemory>
    ensures { IfOk result (λ copy. copy ≡ row_shown row.entry) }
{
    Ok(Row {
        seq: row.seq,
        kind: row.kind,
        key: Bytes::from_slice(alloc, row.key)?,
        value: Bytes::from_slice(alloc, row.value)?,
    })
}

/// Of each key of the memtable the newest row. They come by key, the newest first, so it is the first one of a key.
pub(crate) fn gather(alloc: Global, mem: &Mem) -> Result<Gathering, OutOfMemory>
    ensures { IfOk result (GathersNewest mem.now.rows) }
{
    let mut gathering = Gathering::new(alloc, mem.first(), mem.last())?;
    let mut rows = mem.rows();
    'rows: while let Some(row) = rows.next() {
        if gathering.is_below(row.key) {
            gathering.add(alloc, row)?;
        }
    }
    Ok(gathering)
}
