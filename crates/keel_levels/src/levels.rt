// The tables of a store.
ghost use Rattle.std.specs.Prelude.{◌≡◌, ℕ, ◌++◌, List, Some, true, map, IfOk};
ghost use Rattle.keel_base.specs.Rows.{newest};
ghost use Rattle.keel_directory.specs.TableFiles.{TableFile as ATableFile};
ghost use Rattle.keel_disk.specs.Seen.{IsQuiet};
ghost use Rattle.keel_levels.specs.Live.{AreOpened, tables_of, entries_of, ReadsAll, ScansAll, fault_in, rows_of, scan_fault};
ghost use Rattle.keel_levels.specs.Ranges.{between, lists_between};
ghost use Rattle.keel_merge.specs.Merging.{IsMergeOf, rows_of as merge_rows};
ghost use Rattle.keel_merge.specs.Order.{EachIsAscending};
ghost use Rattle.keel_table.specs.Answers.{fault_in as fault_of};
ghost use Rattle.keel_base.specs.declared.row.Row.{Row as ARow};

use crate::merging::merge_all;
use crate::range::between;
use crate::{LevelFault, LiveTable, ScanFault};
use keel_base::{OutOfMemory, Row, RowLists, Rows};
use keel_disk::Disk;
use keel_edit::Added;
use std::alloc::Global;
use std::marker::Model;

/// The tables of a version in their order, each with its footer and index once it was opened.
#[derive(Debug, Drop)]
pub struct Levels {
    tables: Vec<LiveTable>,
}

impl Model for Levels {
    ghost use Rattle.std.specs.Prelude.{List};
    ghost use Rattle.keel_levels.specs.declared.live.LiveTable.{LiveTable};

    ghost Value = { List LiveTable };

    ghost view = { λ l. l.tables.items };
}

impl Levels {
    /// The tables of a version, none of which is open.
    pub fn new(alloc: Global, entries: &[Added]) -> Result<Levels, OutOfMemory>
        ensures tables { IfOk result (λ levels. tables_of levels ≡ entries.now) }
        ensures opened { IfOk result (λ levels. (files : List ATableFile) → entries_of files ≡ entries.now → AreOpened levels files) }
    {
        let mut tables = Vec::new(alloc);
        'entries: for entry in entries {
            let entry = entry.copy(alloc)?;
            tables.push(LiveTable { entry, table: None })?;
        }
        Ok(Levels { tables })
    }

    /// Puts other tables in place of these. It takes no memory.
    pub fn replace(&mut self, fresh: Levels)
        ensures { self.new ≡ fresh }
    {
        *self = fresh;
    }

    /// The newest row of a key among all rows of all tables. It reads one block of each table that may have a newer row
    /// than the tables before it.
    pub fn get<D: Disk>(
        &mut self,
        alloc: Global,
        disk: &mut D,
        key: &[u8],
    ) -> Result<Option<Row>, LevelFault>
        ensures reads { ReadsAll (D.seen disk.old).told self.old self.new (λ files row. row ≡ newest key.now (rows_of files)) result }
        ensures tables { tables_of self.new ≡ tables_of self.old }
        ensures quiet { IsQuiet (D.seen disk.old) (fault_in result) (D.seen disk.new) }
    {
        let mut found = None;
        'tables: for i in 0..self.tables.len() {
            let number = self.tables[i].entry.number;
            match self.tables[i].newer(alloc, disk, key, found) {
                Ok(newer) => found = newer,
                Err(fault) => return Err(LevelFault { number, fault }),
            }
        }
        Ok(found)
    }

    /// The put that counts of each key in a range, by key: from one key on and below another, an empty one being no
    /// bound. `front` are lists of rows that stand behind those of the tables, each in the order of keys. It takes memory
    /// for the rows of the range.
    pub fn rows_between<D: Disk>(
        &mut self,
        alloc: Global,
        disk: &mut D,
        from: &[u8],
        to: &[u8],
        front: RowLists,
    ) -> Result<Rows, ScanFault>
        ensures reads { EachIsAscending front → ScansAll (D.seen disk.old).told self.old self.new (λ files rows. IsMergeOf (between from.now to.now (rows_of files ++ merge_rows front)) true rows) result }
        ensures tables { tables_of self.new ≡ tables_of self.old }
        ensures quiet { IsQuiet (D.seen disk.old) (fault_of (scan_fault result)) (D.seen disk.new) }
    {
        match self.lists_between(alloc, disk, from, to) {
            Ok(lists) => match merged_between(alloc, from, to, lists, front) {
                Ok(rows) => Ok(rows),
                Err(OutOfMemory) => Err(ScanFault::OutOfMemory),
            },
            Err(fault) => Err(fault),
        }
    }

    /// Of each table its rows of the keys in a range.
    fn lists_between<D: Disk>(
        &mut self,
        alloc: Global,
        disk: &mut D,
        from: &[u8],
        to: &[u8],
    ) -> Result<RowLists, ScanFault>
        ensures reads { ScansAll (D.seen disk.old).told self.old self.new (λ files lists. lists ≡ lists_between from.now to.now files) result }
        ensures tables { tables_of self.new ≡ tables_of self.old }
        ensures quiet { IsQuiet (D.seen disk.old) (fault_of (scan_fault result)) (D.seen disk.new) }
    {
        let mut lists = RowLists::new(alloc);
        'tables: for i in 0..self.tables.len() {
            let number = self.tables[i].entry.number;
            let rows = match self.tables[i].rows_between(alloc, disk, from, to) {
                Ok(rows) => rows,
                Err(fault) => return Err(ScanFault::Table(LevelFault { number, fault })),
            };
            match lists.push(rows) {
                Ok(()) => {}
                Err(OutOfMemory) => return Err(ScanFault::OutOfMemory),
            }
        }
        Ok(lists)
    }
}

/// The merge of the rows in a range, of lists of such rows and of others that stand behind them.
fn merged_between(
    alloc: Global,
    from: &[u8],
    to: &[u8],
    lists: RowLists,
    front: RowLists,
) -> Result<Rows, OutOfMemory>
    ensures { EachIsAscending (lists ++ front) → IfOk result (λ rows. (merged : List ARow) × IsMergeOf (merge_rows (lists ++ front)) true merged × (rows ≡ between from.now to.now merged)) }
{
    let mut lists = lists.into_vec();
    let mut front = front.into_vec();
    lists.append(&mut front)?;
    let rows = merge_all(alloc, lists)?;
    Ok(between(from, to, rows))
}
