// The version of a store: which tables it has.
ghost use Rattle.std.specs.Prelude.{◌≡◌, ◌^◌, ◌<◌, length, IfOk};
ghost use Rattle.keel_edit.specs.Spelling.{IsEdit};
ghost use Rattle.keel_version.specs.Applying.{Gives, applied};
ghost use Rattle.keel_version.specs.Picking.{Picks, on_level, bytes_of};
ghost use Rattle.keel_version.specs.Tables.{AreLevels, IsWithin, nothing};
ghost use Rattle.keel_version.specs.Behind.{MayCome};

use crate::ApplyError;
use crate::copies::copies_of;
use crate::entries::{with_added, without_removed};
use crate::picking::{Busy, Picked, bytes_on, count_on, input_tables, ready_level};
use keel_base::{Options, OutOfMemory};
use keel_edit::{Added, AddedList, Edit};
use std::alloc::Global;
use std::marker::Model;

/// The tables of a store, with the numbers that the last edit set. Contracts see them as `Contents`.
#[derive(Debug, Drop)]
pub struct Version {
    tables: Vec<Added>,
    min_log: u64,
    next_file: u64,
    last_seq: u64,
}

impl Model for Version {
    ghost use Rattle.keel_version.specs.Tables.{Contents, AreLevels, IsWithin};

    ghost Value = { Contents };

    ghost view = { λ v. record {
      tables = v.tables.items;
      min_log = v.min_log;
      next_file = v.next_file;
      last_seq = v.last_seq;
    } };

    ghost invariant = { λ v. AreLevels v.tables.items × IsWithin (record { tables = v.tables.items; min_log = v.min_log; next_file = v.next_file; last_seq = v.last_seq }) };
}

impl Version {
    /// No tables, and all numbers 0: what the first edit of a manifest is applied to.
    pub fn empty(alloc: Global) -> Version
        ensures { result ≡ nothing }
    {
        Version {
            tables: Vec::new(alloc),
            min_log: 0,
            next_file: 0,
            last_seq: 0,
        }
    }

    /// The version behind an edit. Each table that goes has to be on its level; each that comes needs a number
    /// that no table has, and on the levels 1 to 3 a range that meets no other; and the edit's numbers are no
    /// less than before. More than 2^32 - 1 tables count as want of memory. This version stays as it is, and so
    /// its tables are copied.
    pub fn apply(&self, alloc: Global, edit: &Edit) -> Result<Version, ApplyError>
        requires { IsEdit edit.now }
        ensures exact { Gives (λ after. after) result (applied edit.now self.now) }
        // The tables are in order, of different numbers, and apart on each of the levels 1 to 3.
        ensures sound { IfOk result (λ after. AreLevels after.tables) }
        ensures may_come { IfOk result MayCome }
    {
        let copy = Version {
            tables: copies_of(alloc, self.tables.as_slice())?,
            min_log: self.min_log,
            next_file: self.next_file,
            last_seq: self.last_seq,
        };
        copy.into_applied(alloc, edit)
    }

    /// The same of a version that isn't wanted any more: its tables are taken over, none is copied. A refusal
    /// gives it up.
    pub fn into_applied(self, alloc: Global, edit: &Edit) -> Result<Version, ApplyError>
        requires { IsEdit edit.now }
        ensures exact { Gives (λ after. after) result (applied edit.now self) }
        ensures sound { IfOk result (λ after. AreLevels after.tables) }
        ensures may_come { IfOk result MayCome }
    {
        let removed = edit.removed.as_slice();
        let added = edit.added.as_slice();
        let going = small(removed.len())?;
        let coming = small(added.len())?;
        let is_less = edit.min_log < self.min_log
            || edit.next_file < self.next_file
            || edit.last_seq < self.last_seq;
        let tables = without_removed(self.tables, removed)?;
        let tables = with_added(alloc, tables, going, added)?;
        if is_less {
            let entry = u64::from(going) + u64::from(coming);
            return Err(ApplyError::BadEdit { entry });
        }
        small(tables.len())?;
        Ok(Version {
            tables,
            min_log: edit.min_log,
            next_file: edit.next_file,
            last_seq: edit.last_seq,
        })
    }

    /// The tables by level, then by number. They are in order, of different numbers, and apart on each of the
    /// levels 1 to 3; and what stands here is within the bounds of a manifest.
    pub fn as_slice(&self) -> &[Added]
        ensures all { result.now ≡ self.now.tables }
        ensures sound { AreLevels self.now.tables }
        ensures within { IsWithin self.now }
    {
        self.tables.as_slice()
    }

    /// A copy of the tables, in the same order.
    pub fn tables(&self, alloc: Global) -> Result<AddedList, OutOfMemory>
        ensures all { IfOk result (λ tables. tables ≡ self.now.tables) }
        ensures sound { AreLevels self.now.tables }
    {
        Ok(AddedList::from_vec(copies_of(alloc, self.tables.as_slice())?))
    }

    /// How many tables a level has.
    pub fn count_on(&self, level: u8) -> usize
        ensures { result ≡ length (on_level level self.now.tables) }
    {
        count_on(self.tables.as_slice(), level)
    }

    /// The bytes of a level's tables.
    pub fn bytes_on(&self, level: u8) -> u128
        ensures { result ≡ bytes_of (on_level level self.now.tables) }
    {
        bytes_on(self.tables.as_slice(), level)
    }

    /// The least number of a log that holds what is in no table, as the last edit said.
    pub fn min_log(&self) -> u64
        ensures { result ≡ self.now.min_log }
    {
        self.min_log
    }

    /// The number that the next file gets, as the last edit said.
    pub fn next_file(&self) -> u64
        ensures { result ≡ self.now.next_file }
    {
        self.next_file
    }

    /// The greatest sequence number in the tables, as the last edit said.
    pub fn last_seq(&self) -> u64
        ensures { result ≡ self.now.last_seq }
    {
        self.last_seq
    }

    /// What is compacted next, and `None` exactly where nothing is: the least of the levels 0, 1 and 2 that is
    /// over its trigger while neither it nor the next level belongs to a running compaction.
    pub fn pick(
        &self,
        alloc: Global,
        options: &Options,
        busy: &Busy,
    ) -> Result<Option<Picked>, OutOfMemory>
        ensures { Picks options.now busy.now self.now.tables result }
    {
        match ready_level(options, busy, self.tables.as_slice()) {
            None => Ok(None),
            Some(level) => {
                let (inputs, bytes) = input_tables(alloc, self.tables.as_slice(), level)?;
                Ok(Some(Picked {
                    level,
                    inputs,
                    bytes,
                }))
            }
        }
    }
}

// A count that four bytes hold. More tables than that are more than memory serves.
fn small(count: usize) -> Result<u32, OutOfMemory>
    ensures same { IfOk result (λ small. small ≡ count) }
    ensures few { IfOk result (λ _. count < 2 ^ 32) }
{
    match u32::try_from(count) {
        Ok(small) => Ok(small),
        Err(_) => Err(OutOfMemory),
    }
}
