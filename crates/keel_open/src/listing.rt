// The listing of a directory.
ghost use Rattle.std.specs.Prelude.{◌≡◌, ◌⊎◌, ◌+◌, ◌^◌, ◌<◌, ◌≤◌};
ghost use Rattle.keel_disk.specs.Listings.{IsListing};
ghost use Rattle.keel_open.specs.NextFiles.{IsNextFile, number_in};
ghost use Rattle.keel_open.specs.Listed as spec;

use keel_base::{Entry, FileName};

/// Whether it is a file of no new store: a table, a trash file, or a log with a byte.
fn is_used(entry: &Entry) -> bool
    ensures { result ≡ spec.is_used entry.now }
{
    match entry.name {
        FileName::Table(_) | FileName::Trash(_) => true,
        FileName::Log(_) => entry.size != 0,
        FileName::Manifest(_) | FileName::Current | FileName::Temp(_) => false,
    }
}

/// The first file that a new store doesn't have.
pub(crate) fn first_used(listing: &[Entry]) -> Option<FileName>
    ensures { result ≡ spec.first_listed listing.now }
{
    'files: for entry in listing {
        if is_used(entry) {
            return Some(entry.name);
        }
    }
    None
}

/// The number in a name, and 0 where it has none.
fn number_in(name: FileName) -> u64
    ensures { result ≡ number_in name }
{
    match name {
        FileName::Log(number)
        | FileName::Table(number)
        | FileName::Trash(number)
        | FileName::Manifest(number)
        | FileName::Temp(number) => number,
        FileName::Current => 0,
    }
}

/// A number that is over that of a file, too.
fn raised(next: u64, name: FileName) -> u64
    requires { number_in name < 2 ^ 63 }
    ensures kept { next ≤ result }
    ensures over { number_in name < result }
    ensures one { (result ≡ next) ⊎ (result ≡ number_in name + 1) }
{
    let number = number_in(name);
    if number < next { next } else { number + 1 }
}

/// The number of the next file: no less than the manifest's next one, and over those of all files.
pub(crate) fn next_file(listing: &[Entry], floor: u64) -> u64
    requires { IsListing listing.now }
    ensures { IsNextFile listing.now floor result }
{
    let mut next = floor.max(1);
    'files: for entry in listing {
        next = raised(next, entry.name);
    }
    next
}
