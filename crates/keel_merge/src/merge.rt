// Merging.
ghost use Rattle.std.specs.Prelude.{◌≡◌, ℕ, List, Some, None, IfOk, length, slice_set};
ghost use Rattle.keel_base.specs.declared.row.Row.{Row as ARow};
ghost use Rattle.keel_merge.specs.Order.{EachIsAscending};
ghost use Rattle.keel_merge.specs.Merging.{rows_of, staying as staying_row, IsMergeOf};
ghost use Rattle.keel_merge.specs.Feeding.{unfed, MayCome, to_come, IsWanting, IsNextOf, Feeds};
ghost use Rattle.keel_merge.specs.Taking.{Takes, held_after, given, last_of, Steps, IsAsked};

use crate::input::Input;
use crate::look::{Wanting, look};
use crate::next::Next;
use crate::rows::{has_key_of, newer_of, staying};
use keel_base::{OutOfMemory, Row, Rows};
use std::alloc::Global;
use std::marker::Model;

/// Lists of rows that are merged while they are fed. Contracts see what waits, and speak of what is still to come to
/// the lists: for all rows that may come (`MayCome`) it is determined what will be handed out (`to_come`).
#[derive(Debug, Drop)]
pub struct Merge {
    lists: Vec<Input>,
    held: Option<Row>,
    last_level: bool,
}

impl Model for Merge {
    ghost use Rattle.keel_merge.specs.Feeding.{MergeState};

    ghost Value = { MergeState };

    ghost view = { λ m. record { lists = m.lists.items; held = m.held; last_level = m.last_level } };
}

impl Merge {
    /// A merge of so many lists, to which nothing was fed yet. Each list has to be in the order of keys; rows of one key
    /// may stand in one list or in several. Of rows of one key with one number, which no sound store has, the first
    /// counts, in the order of the lists. With `last_level` no level is below, so that a delete has nothing to hide and
    /// is left out (as RocksDB does at its bottommost level).
    pub fn new(alloc: Global, count: usize, last_level: bool) -> Result<Merge, OutOfMemory>
        ensures unfed { IfOk result (λ merge. merge ≡ unfed count last_level) }
        // Whatever the lists will be, what will be handed out is their merge.
        ensures may_come { IfOk result (λ merge. (lists : List (List ARow)) → length lists ≡ count → EachIsAscending lists → MayCome merge lists) }
        ensures merges { IfOk result (λ merge. (lists : List (List ARow)) → length lists ≡ count → IsMergeOf (rows_of lists) last_level (to_come merge lists)) }
    {
        let mut lists = Vec::new(alloc);
        'lists: for _place in 0..count {
            lists.push(Input::unfed(alloc))?;
        }
        Ok(Merge {
            lists,
            held: None,
            last_level,
        })
    }

    /// Takes the next row, where no list has to be refilled first. It takes no memory. Whatever may still come, the row is
    /// the first of what is to be handed out; so all rows that were handed out by the end are the merge of all lists.
    pub fn next_row(&mut self) -> Next
        ensures steps { (coming : List (List ARow)) → MayCome self.old coming → Steps result coming self.old self.new }
        ensures may_come { (coming : List (List ARow)) → MayCome self.old coming → MayCome self.new coming }
        ensures asked { IsAsked result self.new }
    {
        'rows: loop {
            match self.take_least() {
                Err(wanting) => return Next::Refill(wanting.list),
                Ok(None) => return self.last_row(),
                Ok(Some(row)) => {
                    if let Some(done) = self.hold(row) {
                        return Next::Merged(done);
                    }
                }
            }
        }
    }

    /// Feeds a list that had to be refilled with the rows that come next in it; `more` tells whether others may come
    /// behind them. It takes no memory.
    pub fn refill(&mut self, list: usize, rows: Rows, more: bool)
        requires { IsWanting self.old.lists list }
        ensures after { self.new ≡ record self.old { lists = slice_set self.old.lists list (record { rows = rows; more = more }) } }
        // What will be handed out stays the same, where these rows are the next of those that come to the list.
        ensures feeds { (coming : List (List ARow)) (behind : List ARow) → MayCome self.old coming → IsNextOf coming list rows more behind → Feeds self.old self.new coming (slice_set coming list behind) }
    {
        self.lists[list] = Input::new(rows, more);
    }

    // Takes the first of the first rows of the least key off its list.
    fn take_least(&mut self) -> Result<Option<Row>, Wanting>
        ensures { Takes self.old self.new result }
    {
        match look(self.lists.as_slice())? {
            None => Ok(None),
            Some(at) => Ok(Some(self.lists[at].take_first())),
        }
    }

    // Holds a row as the newest so far of the least key. Gives the row that was held, where that has another key and stays.
    fn hold(&mut self, row: Row) -> Option<Row>
        ensures after { self.new ≡ record self.old { held = held_after self.old.held row } }
        ensures given { result ≡ given self.old.last_level self.old.held row }
    {
        match self.held.take() {
            None => {
                self.held = Some(row);
                None
            }
            Some(held) => {
                if has_key_of(&held, &row) {
                    self.held = Some(newer_of(held, row));
                    return None;
                }
                self.held = Some(row);
                staying(self.last_level, held)
            }
        }
    }

    // What comes where no list has a row.
    fn last_row(&mut self) -> Next
        ensures after { self.new ≡ record self.old { held = None } }
        ensures last { result ≡ last_of (staying_row self.old.last_level self.old.held) }
    {
        match self.held.take() {
            None => Next::End,
            Some(held) => match staying(self.last_level, held) {
                None => Next::End,
                Some(row) => Next::Merged(row),
            },
        }
    }
}
