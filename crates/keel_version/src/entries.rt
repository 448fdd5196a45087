// The entries of an edit, one by one.
ghost use Rattle.std.specs.Prelude.{◌≡◌, ◌^◌, ◌<◌, length, position, count_by};
ghost use Rattle.std.specs.List.{list_any};
ghost use Rattle.keel_base.specs.Keys.{key_le};
ghost use Rattle.keel_version.specs.Applying as spec;
ghost use Rattle.keel_version.specs.Tables as tables;

use crate::ApplyError;
use keel_edit::{Added, Removed};
use std::alloc::Global;
use std::cmp::Ordering;

// Whether a key is no greater than another.
pub(crate) fn is_at_most(key: &[u8], other: &[u8]) -> bool
    ensures { result ≡ key_le key.now other.now }
{
    key.cmp(other) != Ordering::Greater
}

fn is_before(one: &Added, other: &Added) -> bool
    ensures { result ≡ tables.is_before one.now other.now }
{
    one.level < other.level || one.level == other.level && one.number < other.number
}

fn ranges_meet(one: &Added, other: &Added) -> bool
    ensures { result ≡ tables.meet one.now other.now }
{
    is_at_most(one.least.as_slice(), other.greatest.as_slice())
        && is_at_most(other.least.as_slice(), one.greatest.as_slice())
}

fn clash(one: &Added, other: &Added) -> bool
    ensures { result ≡ tables.clash one.now other.now }
{
    one.number == other.number
        || one.level == other.level && one.level > 0 && ranges_meet(one, other)
}

fn clashes(table: &Added, others: &[Added]) -> bool
    ensures { result ≡ list_any (tables.clash table.now) others.now }
{
    others.iter().any(|other| clash(table, other))
}

// How many of these come before a table.
fn count_before(table: &Added, others: &[Added]) -> usize
    ensures { result ≡ count_by (λ other. tables.is_before other table.now) others.now }
{
    others
        .iter()
        .filter(|other| is_before(other, table))
        .count()
}

fn place_of(removed: &Removed, tables: &[Added]) -> Option<usize>
    ensures { result ≡ position (spec.is_named removed.now) tables.now }
{
    tables.iter().position(|table| table.level == removed.level && table.number == removed.number)
}

// The tables without those that go.
pub(crate) fn without_removed(
    mut tables: Vec<Added>,
    removed: &[Removed],
) -> Result<Vec<Added>, ApplyError>
    ensures { spec.Gives (λ left. left.items) result (spec.each_fits spec.take_off 0 removed.now tables.items) }
{
    for (entry, table) in removed.iter().enumerate() {
        match place_of(table, tables.as_slice()) {
            None => return Err(ApplyError::BadEdit {
                entry: entry as u64,
            }),
            Some(place) => {
                let _ = tables.remove(place);
            }
        }
    }
    Ok(tables)
}

// A table put at its place, where it can stand with all others.
fn put_on(alloc: Global, tables: &mut Vec<Added>, table: &Added) -> Result<bool, ApplyError>
    ensures { spec.Puts table.now tables.old.items tables.new.items result }
{
    if clashes(table, tables.as_slice()) {
        return Ok(false);
    }
    let place = count_before(table, tables.as_slice());
    tables.insert(place, table.copy(alloc)?)?;
    Ok(true)
}

// The tables with those that come. Their entries are numbered from `first` on.
pub(crate) fn with_added(
    alloc: Global,
    mut tables: Vec<Added>,
    first: u32,
    added: &[Added],
) -> Result<Vec<Added>, ApplyError>
    requires { length added.now < 2 ^ 32 }
    ensures { spec.Gives (λ left. left.items) result (spec.each_fits spec.put_on first added.now tables.items) }
{
    for (place, table) in added.iter().enumerate() {
        let entry = u64::from(first) + place as u64;
        if !put_on(alloc, &mut tables, table)? {
            return Err(ApplyError::BadEdit { entry });
        }
    }
    Ok(tables)
}
