// The tables of a version in a directory.
ghost use Rattle.std.specs.Prelude.{◌≡◌, List, [], ◌++◌, length, IfErr, IfOk, Ok, OnOk, None, Some, is_none, is_some, if◌then◌else◌, option_copied, option_map};
ghost use Rattle.std.specs.List.{flat_map};
ghost use Rattle.keel_table.specs.Opening.{Opened, block_found, opened};
ghost use Rattle.keel_directory.specs.Answers.{Answers, Names, TableRowsAre, damage_named};
ghost use Rattle.keel_directory.specs.TableFiles as spec;
ghost use Rattle.keel_directory.specs.TableFiles.{TableFile};

use crate::answer::{Damaged, DirectoryRefusal};
use crate::files::{File, find};
use keel_base::{FileName, OutOfMemory, Row, Rows};
use keel_edit::Added;
use keel_table::{BlockEntry, TableFault, block_in, open_bytes};
use std::alloc::Global;

/// The bytes of a table.
fn table_bytes<'a>(files: &'a [File], table: &Added) -> Option<&'a [u8]>
    ensures { option_map (λ bytes. bytes.now) result ≡ spec.bytes_of files.now table.now }
{
    find(files, FileName::Table(table.number))
}

/// Of two tables the one of the lesser number.
fn lesser<'a>(table: &'a Added, found: Option<&'a Added>) -> &'a Added
    ensures { Some result.now ≡ spec.lesser table.now (option_copied found.entry) }
{
    match found {
        Some(other) if other.number < table.number => other,
        _ => table,
    }
}

/// The lesser of a table, where it counts, and of what was found behind it.
fn lesser_where<'a>(counts: bool, table: &'a Added, found: Option<&'a Added>) -> Option<&'a Added>
    ensures { option_copied result ≡ (if counts then spec.lesser table.now (option_copied found.entry) else option_copied found.entry) }
{
    if counts {
        Some(lesser(table, found))
    } else {
        found
    }
}

/// The table of the least number whose file isn't there.
fn missing<'a>(files: &[File], tables: &'a [Added]) -> Option<&'a Added>
    ensures { option_copied result ≡ spec.least (λ table. is_none (spec.bytes_of files.now table)) tables.now }
{
    let mut found = None;
    let mut left = tables.len();
    'tables: while left > 0 {
        left -= 1;
        let table = &tables[left];
        found = lesser_where(table_bytes(files, table).is_none(), table, found);
    }
    found
}

/// What is wrong with the file of a table of that size.
fn damage_of(alloc: Global, size: u64, bytes: &[u8]) -> Result<Option<Damaged>, OutOfMemory>
    ensures { IfOk result (λ damage. option_map damage_named damage ≡ spec.damage_of (spec.open_sized size bytes.now)) }
{
    if bytes.len() as u64 != size {
        return Ok(Some(Damaged::BadShape { at: 0 }));
    }
    match open_bytes(alloc, bytes) {
        Ok(_) => Ok(None),
        Err(TableFault::BadCheck { stored, computed }) => {
            Ok(Some(Damaged::BadCheck { stored, computed }))
        }
        Err(TableFault::BadShape { at }) => Ok(Some(Damaged::BadShape { at })),
        Err(TableFault::OutOfMemory) => Err(OutOfMemory),
        Err(TableFault::Device(_) | TableFault::Absent) => unreachable!(),
    }
}

/// What is wrong with a table that is there.
fn damage_in(alloc: Global, files: &[File], table: &Added) -> Result<Option<Damaged>, OutOfMemory>
    ensures { IfOk result (λ damage. option_map damage_named damage ≡ spec.damage_in table.now.size (spec.bytes_of files.now table.now)) }
{
    match table_bytes(files, table) {
        None => Ok(None),
        Some(bytes) => damage_of(alloc, table.size, bytes),
    }
}

/// The table of the least number that is damaged.
fn damaged<'a>(
    alloc: Global,
    files: &[File],
    tables: &'a [Added],
) -> Result<Option<&'a Added>, OutOfMemory>
    ensures { IfOk result (λ found. option_copied found ≡ spec.least (λ table. is_some (spec.damage_in table.size (spec.bytes_of files.now table))) tables.now) }
{
    let mut found = None;
    let mut left = tables.len();
    'tables: while left > 0 {
        left -= 1;
        let table = &tables[left];
        found = lesser_where(damage_in(alloc, files, table)?.is_some(), table, found);
    }
    Ok(found)
}

/// Whether all tables of a version are there and open, or why they aren't read.
fn check_tables(alloc: Global, files: &[File], tables: &[Added]) -> Result<(), DirectoryRefusal>
    ensures ok { OnOk result (spec.refusal_of files.now tables.now ≡ None) }
    ensures err { IfErr result (λ e. Names e (λ refusal. spec.refusal_of files.now tables.now ≡ Some refusal)) }
{
    if let Some(table) = missing(files, tables) {
        return Err(DirectoryRefusal::MissingTable {
            number: table.number,
        });
    }
    let Some(table) = damaged(alloc, files, tables)? else {
        return Ok(());
    };
    match damage_in(alloc, files, table)? {
        None => Ok(()),
        Some(damage) => Err(DirectoryRefusal::BadTable {
            number: table.number,
            damage,
        }),
    }
}

/// The rows of a block. A bad one has none.
fn block_rows(
    alloc: Global,
    bytes: &[u8],
    before: &[u8],
    entry: &BlockEntry,
) -> Result<Rows, OutOfMemory>
    ensures { IfOk result (λ rows. rows ≡ spec.rows_found (block_found before.now entry.now bytes.now)) }
{
    match block_in(alloc, bytes, before, entry) {
        Ok(rows) => Ok(rows),
        Err(TableFault::OutOfMemory) => Err(OutOfMemory),
        Err(_) => Ok(Rows::new(alloc)),
    }
}

/// Adds the rows of the entries' blocks, the first of which stands behind a key.
fn add_blocks(
    alloc: Global,
    bytes: &[u8],
    before: &[u8],
    entries: &[BlockEntry],
    rows: &mut Vec<Row>,
) -> Result<(), OutOfMemory>
    ensures { OnOk result (rows.new.items ≡ rows.old.items ++ spec.block_rows bytes.now before.now entries.now) }
{
    let mut before = before;
    for entry in entries {
        let mut found = block_rows(alloc, bytes, before, entry)?.into_vec();
        rows.append(&mut found)?;
        before = entry.last.as_slice();
    }
    Ok(())
}

/// Adds the rows of a table that opens.
fn add_table(alloc: Global, bytes: &[u8], rows: &mut Vec<Row>) -> Result<(), OutOfMemory>
    ensures { OnOk result ((file : Opened) → opened (length bytes.now) bytes.now ≡ Ok file → rows.new.items ≡ rows.old.items ++ spec.block_rows bytes.now [] file.entries) }
{
    match open_bytes(alloc, bytes) {
        Ok((_, entries)) => add_blocks(alloc, bytes, b"", entries.as_slice(), rows),
        Err(TableFault::OutOfMemory) => Err(OutOfMemory),
        Err(_) => Ok(()),
    }
}

/// Adds the rows of a table whose file is there and opens.
fn add_file(
    alloc: Global,
    files: &[File],
    table: &Added,
    rows: &mut Vec<Row>,
) -> Result<(), OutOfMemory>
    ensures { OnOk result ((t : TableFile) → spec.Opens files.now table.now t → rows.new.items ≡ rows.old.items ++ spec.table_rows t) }
{
    match table_bytes(files, table) {
        Some(bytes) => add_table(alloc, bytes, rows),
        None => Ok(()),
    }
}

/// Adds the rows of tables that are all there and open.
fn add_tables(
    alloc: Global,
    files: &[File],
    tables: &[Added],
    rows: &mut Vec<Row>,
) -> Result<(), OutOfMemory>
    ensures { OnOk result ((read : List TableFile) → spec.AllOpen files.now tables.now read → rows.new.items ≡ rows.old.items ++ flat_map spec.table_rows read) }
{
    for table in tables {
        add_file(alloc, files, table, rows)?;
    }
    Ok(())
}

/// The rows of the tables of a version, or why they aren't read.
pub(crate) fn table_rows(
    alloc: Global,
    files: &[File],
    tables: &[Added],
) -> Result<Vec<Row>, DirectoryRefusal>
    ensures { Answers (λ rows. rows.items) (TableRowsAre files.now tables.now) result }
{
    check_tables(alloc, files, tables)?;
    let mut rows = Vec::new(alloc);
    add_tables(alloc, files, tables, &mut rows)?;
    Ok(rows)
}
