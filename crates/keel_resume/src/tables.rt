// The tables of the version behind a job.
ghost use Rattle.std.specs.Prelude.{◌≡◌, ◌++◌, IfOk, OnOk};
ghost use Rattle.keel_edit.specs.declared.edit.Added.{Added as AnAdded};
ghost use Rattle.keel_draft.specs.Drafts.{added_of, numbered, with_new as tables_with};

use keel_base::OutOfMemory;
use keel_draft::{TableDraft, with_new};
use keel_edit::{Added, AddedList};
use std::alloc::Global;

/// The tables that were made stand among those of the version as new ones.
pub(crate) fn with_tables(
    alloc: Global,
    live: &[Added],
    numbers: &[u64],
    drafts: &[TableDraft],
) -> Result<AddedList, OutOfMemory>
    ensures { IfOk result (λ tables. tables ≡ tables_with (λ (table : AnAdded). table.level) live.now (numbered added_of numbers.now drafts.now)) }
{
    let mut new = AddedList::new(alloc);
    add_new(alloc, &mut new, numbers, drafts)?;
    with_new(alloc, live, new.as_slice())
}

// Adds the entries of the tables that have numbers.
fn add_new(
    alloc: Global,
    tables: &mut AddedList,
    numbers: &[u64],
    drafts: &[TableDraft],
) -> Result<(), OutOfMemory>
    ensures { OnOk result (tables.new ≡ tables.old ++ numbered added_of numbers.now drafts.now) }
{
    let [number, numbers @ ..] = numbers else {
        return Ok(());
    };
    let [draft, drafts @ ..] = drafts else {
        return Ok(());
    };
    tables.push(draft.added(alloc, *number)?)?;
    add_new(alloc, tables, numbers, drafts)
}
