// Two rows, and whether one stays.
ghost use Rattle.std.specs.Prelude.{◌≡◌, Some};
ghost use Rattle.keel_base.specs.Keys.{key_lt, key_eq};
ghost use Rattle.keel_merge.specs.Merging.{stays, staying};
ghost use Rattle.keel_merge.specs.Placing.{newer_of};

use keel_base::{Kind, Row};

/// Whether a row's key comes before that of another.
pub(crate) fn is_before(row: &Row, other: &Row) -> bool
    ensures { result ≡ key_lt row.now.key other.now.key }
{
    row.key.as_slice().cmp(other.key.as_slice()).is_lt()
}

/// Whether two rows have one key.
pub(crate) fn has_key_of(row: &Row, other: &Row) -> bool
    ensures { result ≡ key_eq row.now.key other.now.key }
{
    row.key.as_slice().cmp(other.key.as_slice()).is_eq()
}

/// Of two rows the newer, and the first where they have one number.
pub(crate) fn newer_of(row: Row, other: Row) -> Row
    ensures { result ≡ newer_of row other }
{
    if row.seq < other.seq { other } else { row }
}

/// Whether a row stays: on the last level a delete doesn't, for there is nothing below that it hides.
fn stays(last_level: bool, row: &Row) -> bool
    ensures { result ≡ stays last_level row.now }
{
    match row.kind {
        Kind::Del => !last_level,
        Kind::Put => true,
    }
}

/// The row, where it stays.
pub(crate) fn staying(last_level: bool, row: Row) -> Option<Row>
    ensures { result ≡ staying last_level (Some row) }
{
    if stays(last_level, &row) {
        Some(row)
    } else {
        None
    }
}
