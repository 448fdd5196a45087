// The tables of a version.
ghost use Rattle.std.specs.Prelude.{◌≡◌, ◌∷◌, List, All, Ok, Some};
ghost use Rattle.keel_disk.specs.Listings.{size_listed};
ghost use Rattle.keel_disk.specs.Seen.{IsQuiet};
ghost use Rattle.keel_disk.specs.Told.{TellsListing, TellsSize};
ghost use Rattle.keel_base.specs.Name.{IsFileNumber};
ghost use Rattle.keel_edit.specs.declared.edit.Added.{Added as AnAdded};
ghost use Rattle.keel_base.specs.declared.file_name.FileName.TheVariants.{Table as TableName};
ghost use Rattle.keel_directory.specs.TableFiles.{least};
ghost use Rattle.keel_edit.specs.Spelling.{IsAdded};
ghost use Rattle.keel_open.specs.Refusals.{fault_in};
ghost use Rattle.keel_open.specs.TableAnswers as spec;

use crate::refusal::OpenRefusal;
use keel_base::{Entry, FileName, same_name};
use keel_disk::Disk;
use keel_edit::Added;
use keel_table::{Table, TableFault, open_table};
use std::alloc::Global;

/// A table whose file is damaged.
#[derive(Clone, Copy, Debug)]
pub(crate) struct DamagedTable {
    pub(crate) number: u64,
    pub(crate) fault: TableFault,
}

/// The size of a file of a listing.
fn size_of(listing: &[Entry], name: FileName) -> Option<u64>
    ensures { result ≡ size_listed name listing.now }
{
    'files: for entry in listing {
        if same_name(entry.name, name) {
            return Some(entry.size);
        }
    }
    None
}

/// Of two numbers the lesser.
fn lesser(number: u64, found: Option<u64>) -> u64
    ensures { result ≡ spec.lesser_number number found }
{
    match found {
        None => number,
        Some(other) => { if other < number { other } else { number } }
    }
}

/// The least number of a table that isn't listed.
pub(crate) fn least_missing(listing: &[Entry], tables: &[Added]) -> Option<u64>
    ensures { result ≡ spec.number_found (least (spec.is_unlisted listing.now) tables.now) }
{
    let mut found = None;
    let mut left = tables.len();
    'tables: while left > 0 {
        left -= 1;
        let number = tables[left].number;
        if size_of(listing, FileName::Table(number)).is_none() {
            found = Some(lesser(number, found));
        }
    }
    found
}

/// What the opening of a table tells of its damage.
fn damage_told(
    number: u64,
    opened: Result<Table, TableFault>,
) -> Result<Option<TableFault>, OpenRefusal>
    ensures { result ≡ spec.damage_told number opened }
{
    match opened {
        Ok(_) => Ok(None),
        Err(TableFault::Device(fault)) => Err(OpenRefusal::Device(fault)),
        Err(TableFault::Absent) => Err(OpenRefusal::MissingTable { number }),
        Err(TableFault::BadCheck { stored, computed }) => {
            Ok(Some(TableFault::BadCheck { stored, computed }))
        }
        Err(TableFault::BadShape { at }) => Ok(Some(TableFault::BadShape { at })),
        Err(TableFault::OutOfMemory) => Err(OpenRefusal::OutOfMemory),
    }
}

/// What is wrong with the file of a table, which has that size. Its footer and index are read.
fn damage_of<D: Disk>(
    alloc: Global,
    disk: &mut D,
    table: &Added,
    size: u64,
) -> Result<Option<TableFault>, OpenRefusal>
    requires { TellsSize (TableName table.now.number) (D.seen disk.old).told (Ok size) }
    ensures damage { spec.DamageTells (D.seen disk.old).told table.now result }
    ensures quiet { IsQuiet (D.seen disk.old) (fault_in result) (D.seen disk.new) }
{
    if size != table.size {
        return Ok(Some(TableFault::BadShape { at: 0 }));
    }
    let opened = open_table(alloc, disk, table.number, size);
    damage_told(table.number, opened)
}

/// What is wrong with the file of a table, if it is listed.
fn damage_listed<D: Disk>(
    alloc: Global,
    disk: &mut D,
    listing: &[Entry],
    table: &Added,
) -> Result<Option<TableFault>, OpenRefusal>
    requires tells { TellsListing (D.seen disk.old).told listing.now }
    requires name { IsFileNumber table.now.number }
    ensures damage { spec.DamageTells (D.seen disk.old).told table.now result }
    ensures quiet { IsQuiet (D.seen disk.old) (fault_in result) (D.seen disk.new) }
{
    match size_of(listing, FileName::Table(table.number)) {
        None => Ok(None),
        Some(size) => damage_of(alloc, disk, table, size),
    }
}

/// Whether a damaged table is chosen that has a lesser number.
fn is_below(found: Option<DamagedTable>, number: u64) -> bool
    ensures { result ≡ spec.is_below found number }
{
    match found {
        None => false,
        Some(other) => other.number < number,
    }
}

/// Chooses a table that is damaged in place of another.
fn with_damage(
    number: u64,
    damage: Option<TableFault>,
    found: Option<DamagedTable>,
) -> Option<DamagedTable>
    ensures { result ≡ spec.with_damage number damage found }
{
    match damage {
        None => found,
        Some(fault) => Some(DamagedTable { number, fault }),
    }
}

/// The damaged table of the lesser number, of the one that was chosen among others and a table. One of a greater
/// number isn't read.
fn with_table<D: Disk>(
    alloc: Global,
    disk: &mut D,
    listing: &[Entry],
    table: &Added,
    found: Option<DamagedTable>,
) -> Result<Option<DamagedTable>, OpenRefusal>
    requires tells { TellsListing (D.seen disk.old).told listing.now }
    requires name { IsFileNumber table.now.number }
    ensures damage { (rest : List AnAdded) → spec.ChosenTells (D.seen disk.old).told rest found → spec.DamagedTell (D.seen disk.old).told (table.now ∷ rest) result }
    ensures quiet { IsQuiet (D.seen disk.old) (fault_in result) (D.seen disk.new) }
{
    if is_below(found, table.number) {
        return Ok(found);
    }
    match damage_listed(alloc, disk, listing, table) {
        Ok(damage) => Ok(with_damage(table.number, damage, found)),
        Err(refusal) => Err(refusal),
    }
}

/// The damaged table of the least number, of tables that are all listed.
fn least_damaged<D: Disk>(
    alloc: Global,
    disk: &mut D,
    listing: &[Entry],
    tables: &[Added],
) -> Result<Option<DamagedTable>, OpenRefusal>
    requires tells { TellsListing (D.seen disk.old).told listing.now }
    requires within { All IsAdded tables.now }
    ensures damage { spec.DamagedTell (D.seen disk.old).told tables.now result }
    ensures quiet { IsQuiet (D.seen disk.old) (fault_in result) (D.seen disk.new) }
{
    let mut found = None;
    let mut left = tables.len();
    'tables: while left > 0 {
        left -= 1;
        let table = &tables[left];
        found = match with_table(alloc, disk, listing, table, found) {
            Ok(next) => next,
            Err(refusal) => return Err(refusal),
        };
    }
    Ok(found)
}

/// Whether all tables of a version are there with their sizes and open, or why they aren't read. A table that is
/// missing comes before each that is damaged.
pub(crate) fn check_tables<D: Disk>(
    alloc: Global,
    disk: &mut D,
    listing: &[Entry],
    tables: &[Added],
) -> Result<(), OpenRefusal>
    requires tells { TellsListing (D.seen disk.old).told listing.now }
    requires within { All IsAdded tables.now }
    ensures tables { spec.TablesTell (D.seen disk.old).told tables.now result }
    ensures quiet { IsQuiet (D.seen disk.old) (fault_in result) (D.seen disk.new) }
{
    match least_missing(listing, tables) {
        Some(number) => Err(OpenRefusal::MissingTable { number }),
        None => match least_damaged(alloc, disk, listing, tables) {
            Ok(None) => Ok(()),
            Ok(Some(DamagedTable { number, fault })) => {
                Err(OpenRefusal::BadTable { number, fault })
            }
            Err(refusal) => Err(refusal),
        },
    }
}
