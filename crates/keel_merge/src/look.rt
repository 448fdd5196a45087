// The least of the first rows.
ghost use Rattle.std.specs.Prelude.{◌≡◌, Some};
ghost use Rattle.keel_merge.specs.Taking.{seen, lesser, Weighs, Looks};

use crate::input::Input;
use crate::rows::is_before;
use keel_base::Row;

// The list that has to be refilled.
#[derive(Debug, Drop)]
pub(crate) struct Wanting {
    pub(crate) list: usize,
}

// Of two places with their rows that of the lesser key, and the first where the keys are one.
fn lesser<'a>(best: Option<(usize, &'a Row)>, at: usize, row: &'a Row) -> (usize, &'a Row)
    ensures { Some (result.0, result.1.now) ≡ lesser at (Some row.now) (seen best.entry) }
{
    match best {
        None => (at, row),
        Some((place, least)) => {
            if is_before(row, least) {
                (at, row)
            } else {
                (place, least)
            }
        }
    }
}

// Of the first row of a list and the least one before it the less, with its place.
fn weighed<'a>(
    best: Option<(usize, &'a Row)>,
    at: usize,
    list: &'a Input,
) -> Result<Option<(usize, &'a Row)>, Wanting>
    ensures { Weighs at list.now (seen best.entry) result }
{
    match list.first() {
        None => {
            if list.may_grow() {
                return Err(Wanting { list: at });
            }
            Ok(best)
        }
        Some(row) => Ok(Some(lesser(best, at, row))),
    }
}

// The place of the first list whose first row has the least key; none where no row is left.
pub(crate) fn look(lists: &[Input]) -> Result<Option<usize>, Wanting>
    ensures { Looks lists.now result }
{
    let mut best = None;
    for (at, list) in lists.iter().enumerate() {
        best = weighed(best, at, list)?;
    }
    match best {
        None => Ok(None),
        Some((at, _)) => Ok(Some(at)),
    }
}
