// Which tables are compacted next.
ghost use Rattle.std.specs.Prelude.{◌≡◌, ◌<◌, ◌==◌, ◌&&◌, filter, count_by, IfOk};
ghost use Rattle.std.specs.List.{list_any};
ghost use Rattle.keel_base.specs.Keys.{key_le};
ghost use Rattle.keel_version.specs.Picking as spec;

use crate::entries::is_at_most;
use keel_base::{Options, OutOfMemory};
use keel_edit::{Added, AddedList};
use std::alloc::Global;

/// Which levels belong to a running compaction.
#[derive(Clone, Copy, Debug)]
pub struct Busy {
    pub levels: [bool; 4],
}

/// What a compaction takes: tables of a level, and those of the next that their keys reach.
#[derive(Debug, Drop)]
pub struct Picked {
    /// 0 to 2. What comes out goes to the next level.
    pub level: u8,
    /// By level, then by number.
    pub inputs: AddedList,
    /// The bytes of the inputs.
    pub bytes: u128,
}

pub(crate) fn count_on(tables: &[Added], level: u8) -> usize
    ensures { result ≡ count_by (λ table. table.level == level) tables.now }
{
    tables.iter().filter(|table| table.level == level).count()
}

pub(crate) fn bytes_on(tables: &[Added], level: u8) -> u128
    ensures { result ≡ spec.bytes_of (spec.on_level level tables.now) }
{
    let mut bytes: u128 = 0;
    for table in tables {
        if table.level == level {
            bytes += u128::from(table.size);
        }
    }
    bytes
}

fn bytes_in(tables: &[Added]) -> u128
    ensures { result ≡ spec.bytes_of tables.now }
{
    let mut bytes: u128 = 0;
    for table in tables {
        bytes += u128::from(table.size);
    }
    bytes
}

fn is_over(options: &Options, tables: &[Added], level: u8) -> bool
    ensures { result ≡ spec.is_over options.now tables.now level }
{
    if level == 0 {
        count_on(tables, 0) >= options.level0_trigger as usize
    } else if level == 1 {
        bytes_on(tables, level) > u128::from(options.level_base)
    } else {
        bytes_on(tables, level) > 10 * u128::from(options.level_base)
    }
}

fn is_ready(options: &Options, busy: &Busy, tables: &[Added], level: u8) -> bool
    requires { level < 3 }
    ensures { result ≡ spec.is_ready options.now busy.now tables.now level }
{
    let place = level as usize;
    is_over(options, tables, level) && !busy.levels[place] && !busy.levels[place + 1]
}

// The least level that is ready.
pub(crate) fn ready_level(options: &Options, busy: &Busy, tables: &[Added]) -> Option<u8>
    ensures { spec.FindsLeast options.now busy.now tables.now result }
{
    for level in 0..3 {
        if is_ready(options, busy, tables, level) {
            return Some(level);
        }
    }
    None
}

// The tables of a level.
fn tables_on(alloc: Global, tables: &[Added], level: u8) -> Result<Vec<Added>, OutOfMemory>
    ensures { IfOk result (λ found. found.items ≡ spec.on_level level tables.now) }
{
    let mut found = Vec::new(alloc);
    for table in tables {
        if table.level == level {
            found.push(table.copy(alloc)?)?;
        }
    }
    Ok(found)
}

// All tables of level 0, or of another level the first one.
fn seeds(alloc: Global, tables: &[Added], level: u8) -> Result<Vec<Added>, OutOfMemory>
    ensures { IfOk result (λ found. found.items ≡ spec.seeds level tables.now) }
{
    let mut found = tables_on(alloc, tables, level)?;
    if level == 0 {
        return Ok(found);
    }
    found.truncate(1);
    Ok(found)
}

// Whether one of the tables begins no later than at a key.
fn begin_by(tables: &[Added], key: &[u8]) -> bool
    ensures { result ≡ list_any (λ t. key_le t.least key.now) tables.now }
{
    tables
        .iter()
        .any(|table| is_at_most(table.least.as_slice(), key))
}

// Whether one of the tables ends no sooner than at a key.
fn end_from(tables: &[Added], key: &[u8]) -> bool
    ensures { result ≡ list_any (λ t. key_le key.now t.greatest) tables.now }
{
    tables
        .iter()
        .any(|table| is_at_most(key, table.greatest.as_slice()))
}

// Whether the range of a table meets that of the seeds taken together.
fn is_near(seeds: &[Added], table: &Added) -> bool
    ensures { result ≡ spec.is_near seeds.now table.now }
{
    begin_by(seeds, table.greatest.as_slice()) && end_from(seeds, table.least.as_slice())
}

// The tables of a level that are near the seeds.
fn near_tables(
    alloc: Global,
    tables: &[Added],
    level: u8,
    seeds: &[Added],
) -> Result<Vec<Added>, OutOfMemory>
    ensures { IfOk result (λ found. found.items ≡ filter (λ t. (t.level == level) && spec.is_near seeds.now t) tables.now) }
{
    let mut found = Vec::new(alloc);
    for table in tables {
        if table.level == level && is_near(seeds, table) {
            found.push(table.copy(alloc)?)?;
        }
    }
    Ok(found)
}

// What a compaction of that level takes, and its bytes.
pub(crate) fn input_tables(
    alloc: Global,
    tables: &[Added],
    level: u8,
) -> Result<(AddedList, u128), OutOfMemory>
    requires { level < 3 }
    ensures { IfOk result (λ found. (found.0 ≡ spec.inputs level tables.now) × (found.1 ≡ spec.bytes_of found.0)) }
{
    let mut inputs = seeds(alloc, tables, level)?;
    let mut near = near_tables(alloc, tables, level + 1, inputs.as_slice())?;
    inputs.append(&mut near)?;
    let bytes = bytes_in(inputs.as_slice());
    Ok((AddedList::from_vec(inputs), bytes))
}
