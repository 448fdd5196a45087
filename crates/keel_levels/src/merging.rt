// Lists of rows as one.
ghost use Rattle.std.specs.Prelude.{◌≡◌, ℕ, List, [], true, IfOk, slice_set, slice_index_or, length};
ghost use Rattle.keel_base.specs.declared.row.Row.{Row as ARow};
ghost use Rattle.keel_merge.specs.Merging.{IsMergeOf, rows_of};
ghost use Rattle.keel_merge.specs.Order.{EachIsAscending};
ghost use Rattle.keel_merge.specs.Laws.{IsAlong};
ghost use Rattle.keel_levels.specs.Merging.{GoesOn};

use keel_base::{OutOfMemory, Rows};
use keel_merge::{Merge, Next};
use std::alloc::Global;
use std::mem;

/// How many rows some lists have, and how many lists there are.
fn count(lists: &[Rows]) -> usize {
    let mut count = lists.len();
    'lists: for list in lists {
        count = count.saturating_add(list.len());
    }
    count
}

/// Takes the rows of a list out.
fn take_list(alloc: Global, lists: &mut Vec<Rows>, list: usize) -> Rows
    ensures rows { result ≡ slice_index_or lists.old.items list [] }
    ensures left { lists.new.items ≡ slice_set lists.old.items list [] }
{
    if list < lists.len() {
        mem::replace(&mut lists[list], Rows::new(alloc))
    } else {
        Rows::new(alloc)
    }
}

/// Takes the next row of a merge, or feeds it a list. Answers whether it has ended.
fn step(
    alloc: Global,
    merge: &mut Merge,
    lists: &mut Vec<Rows>,
    rows: &mut Rows,
) -> Result<bool, OutOfMemory>
    ensures { (all : List (List ARow)) → IsAlong all true rows.old merge.old lists.old.items → IfOk result (GoesOn all rows.new merge.new lists.new.items) }
{
    match merge.next_row() {
        Next::Merged(row) => {
            rows.push(row)?;
            Ok(false)
        }
        Next::Refill(list) => {
            let next = take_list(alloc, lists, list);
            merge.refill(list, next, false);
            Ok(false)
        }
        Next::End => Ok(true),
    }
}

/// The rows of some lists, each in the order of keys, as one list: the newest of each key, without deletes.
pub(crate) fn merge_all(alloc: Global, lists: Vec<Rows>) -> Result<Rows, OutOfMemory>
    ensures { EachIsAscending lists.items → IfOk result (IsMergeOf (rows_of lists.items) true) }
{
    // Each step takes a row or a list, and the last one ends.
    let steps = count(lists.as_slice()).saturating_add(1);
    let mut merge = Merge::new(alloc, lists.len(), true)?;
    let mut left = lists;
    let mut rows = Rows::new(alloc);
    'steps: for _step in 0..steps {
        if step(alloc, &mut merge, &mut left, &mut rows)? {
            return Ok(rows);
        }
    }
    Err(OutOfMemory)
}
