// The logs of a listing.
ghost use Rattle.std.specs.Prelude.{List, [], ◌∷◌, ◌++◌};
ghost use Rattle.keel_base.specs.declared.listing.Entry.{Entry};
ghost use Rattle.keel_listing.specs.Logs.{IsNextIn};

use keel_base::{Entry, FileName};

/// A log, with its size in bytes.
#[derive(Clone, Copy)]
pub struct ListedLog {
    pub number: u64,
    pub size: u64,
}

/// The one with the smaller number, of the log that was chosen before and a file, where that is a log of a number
/// from the least on.
fn nearer(least: u64, chosen: Option<ListedLog>, entry: Entry) -> Option<ListedLog>
    ensures { (front : List Entry) → IsNextIn front least chosen → IsNextIn (front ++ entry ∷ []) least result }
{
    let FileName::Log(number) = entry.name else {
        return chosen;
    };
    if number < least {
        return chosen;
    }
    let size = entry.size;
    match chosen {
        None => Some(ListedLog { number, size }),
        Some(before) => {
            if number < before.number {
                Some(ListedLog { number, size })
            } else {
                chosen
            }
        }
    }
}

/// The log with the least number from one on. Listings go by the printed names, where `1000000.log` stands before
/// `999999.log`, so their order is not that of the numbers.
pub fn next_log(listing: &[Entry], least: u64) -> Option<ListedLog>
    ensures { IsNextIn listing.now least result }
{
    let mut chosen = None;
    for entry in listing {
        chosen = nearer(least, chosen, *entry);
    }
    chosen
}
