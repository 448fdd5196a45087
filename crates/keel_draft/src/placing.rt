// New tables among those of a version.
ghost use Rattle.std.specs.Prelude.{◌≡◌, ◌==◌, not, ◌∷◌, ◌++◌, [], filter, IfOk, OnOk};
ghost use Rattle.keel_edit.specs.declared.edit.Added.{Added as AnAdded};
ghost use Rattle.keel_draft.specs.Drafts.{with_new as tables_with};

use keel_base::OutOfMemory;
use keel_edit::{Added, AddedList};
use std::alloc::Global;

/// The new tables stand behind the others of level 0, before those of the other levels.
pub fn with_new(alloc: Global, live: &[Added], new: &[Added]) -> Result<AddedList, OutOfMemory>
    ensures { IfOk result (λ tables. tables ≡ tables_with (λ (table : AnAdded). table.level) live.now new.now) }
{
    let mut tables = AddedList::new(alloc);
    add_upper(alloc, &mut tables, live)?;
    add_all(alloc, &mut tables, new)?;
    add_lower(alloc, &mut tables, live)?;
    Ok(tables)
}

// Adds a copy of the table, where it is wanted.
fn add_where(
    alloc: Global,
    tables: &mut AddedList,
    table: &Added,
    wanted: bool,
) -> Result<(), OutOfMemory>
    ensures { OnOk result (tables.new ≡ tables.old ++ filter (λ (table : AnAdded). wanted) (table.now ∷ [])) }
{
    if wanted {
        tables.push(table.copy(alloc)?)?;
    }
    Ok(())
}

fn add_upper(alloc: Global, tables: &mut AddedList, live: &[Added]) -> Result<(), OutOfMemory>
    ensures { OnOk result (tables.new ≡ tables.old ++ filter (λ (table : AnAdded). table.level == 0) live.now) }
{
    for table in live {
        add_where(alloc, tables, table, table.level == 0)?;
    }
    Ok(())
}

fn add_all(alloc: Global, tables: &mut AddedList, new: &[Added]) -> Result<(), OutOfMemory>
    ensures { OnOk result (tables.new ≡ tables.old ++ new.now) }
{
    for table in new {
        add_where(alloc, tables, table, true)?;
    }
    Ok(())
}

fn add_lower(alloc: Global, tables: &mut AddedList, live: &[Added]) -> Result<(), OutOfMemory>
    ensures { OnOk result (tables.new ≡ tables.old ++ filter (λ (table : AnAdded). not (table.level == 0)) live.now) }
{
    for table in live {
        add_where(alloc, tables, table, table.level != 0)?;
    }
    Ok(())
}
