// The map of rows: of all rows of a key the newest counts.
ghost use Rattle.std.specs.Prelude.{◌≡◌, ◌≤◌, not, ◌∷◌, filter, length, IfOk, OnOk, Some, if◌then◌else◌, option_copied};
ghost use Rattle.std.specs.List.{prefix_len};
ghost use Rattle.keel_base.specs.Keys.{key_eq, key_lt};
ghost use Rattle.keel_base.specs.Rows as spec;
ghost use Rattle.keel_directory.specs.Answers.{ArePairsOf, Sets, is_over};

use keel_base::{Bytes, Kind, OutOfMemory, Row};
use std::alloc::Global;

fn is_same(key: &[u8], other: &[u8]) -> bool
    ensures { result ≡ key_eq key.now other.now }
{
    key.cmp(other).is_eq()
}

fn is_below(key: &[u8], other: &[u8]) -> bool
    ensures { result ≡ key_lt key.now other.now }
{
    key.cmp(other).is_lt()
}

/// The newer of a row, where it is one of the key, and of what was found behind it.
fn newest_of<'a>(row: &'a Row, found: Option<&'a Row>, key: &[u8]) -> Option<&'a Row>
    ensures { option_copied result ≡ (if key_eq row.now.key key.now then spec.newer row.now (option_copied found.entry) else option_copied found.entry) }
{
    if is_same(row.key.as_slice(), key) {
        Some(newer(row, found))
    } else {
        found
    }
}

/// Of the rows of a key the newest.
fn newest<'a>(rows: &'a [Row], key: &[u8]) -> Option<&'a Row>
    ensures { option_copied result ≡ spec.newest key.now rows.now }
{
    let mut found = None;
    let mut left = rows.len();
    'rows: while left > 0 {
        left -= 1;
        found = newest_of(&rows[left], found, key);
    }
    found
}

/// Of two rows the one of the greater number.
fn newer<'a>(row: &'a Row, found: Option<&'a Row>) -> &'a Row
    ensures { Some result.now ≡ spec.newer row.now (option_copied found.entry) }
{
    match found {
        Some(other) if row.seq < other.seq => other,
        _ => row,
    }
}

/// Takes a key with its value out.
fn take_out(pairs: &mut Vec<(Bytes, Bytes)>, key: &[u8])
    ensures { pairs.new.items ≡ filter (λ pair. not (key_eq key.now pair.0)) pairs.old.items }
{
    pairs.retain(|pair| !is_same(key, pair.0.as_slice()));
}

/// How many pairs from the first on have a key that isn't over that one.
fn place_of(pairs: &[(Bytes, Bytes)], key: &[u8]) -> usize
    ensures place { result ≡ prefix_len (λ pair. not (key_lt key.now pair.0)) pairs.now }
    ensures within { result ≤ length pairs.now }
{
    let mut place = 0;
    for pair in pairs {
        if is_below(key, pair.0.as_slice()) {
            return place;
        }
        place += 1;
    }
    place
}

/// Sets what a row leaves of its key.
fn set(alloc: Global, row: &Row, pairs: &mut Vec<(Bytes, Bytes)>) -> Result<(), OutOfMemory>
    ensures { OnOk result (Sets row.now pairs.old.items pairs.new.items) }
{
    let key = row.key.as_slice();
    take_out(pairs, key);
    match row.kind {
        Kind::Del => Ok(()),
        Kind::Put => {
            let place = place_of(pairs.as_slice(), key);
            let key = Bytes::from_slice(alloc, key)?;
            let value = Bytes::from_slice(alloc, row.value.as_slice())?;
            pairs.insert(place, (key, value))?;
            Ok(())
        }
    }
}

/// Whether a row is the newest of its key before some rows.
fn is_newest(row: &Row, rest: &[Row]) -> bool
    ensures { result ≡ is_over row.now (spec.newest row.now.key rest.now) }
{
    match newest(rest, row.key.as_slice()) {
        None => true,
        Some(other) => other.seq <= row.seq,
    }
}

/// Makes the map of some rows that of the same with another before them.
fn add_row(
    alloc: Global,
    row: &Row,
    rest: &[Row],
    pairs: &mut Vec<(Bytes, Bytes)>,
) -> Result<(), OutOfMemory>
    ensures { OnOk result (ArePairsOf rest.now pairs.old.items → ArePairsOf (row.now ∷ rest.now) pairs.new.items) }
{
    if !is_newest(row, rest) {
        return Ok(());
    }
    set(alloc, row, pairs)
}

/// The map of some rows, by key.
pub(crate) fn pairs_of(alloc: Global, rows: &[Row]) -> Result<Vec<(Bytes, Bytes)>, OutOfMemory>
    ensures { IfOk result (λ pairs. ArePairsOf rows.now pairs.items) }
{
    let mut pairs = Vec::new(alloc);
    let mut left = rows.len();
    'rows: while left > 0 {
        let rest = &rows[left..];
        left -= 1;
        add_row(alloc, &rows[left], rest, &mut pairs)?;
    }
    Ok(pairs)
}
