// The files of a directory, in the order of their printed names.
ghost use Rattle.std.specs.Prelude.{◌≡◌, false, slice_get, IfOk, OnOk, MatchOption};
ghost use Rattle.keel_base.specs.Keys.{key_lt};
ghost use Rattle.keel_base.specs.Listings.{IsListing};
ghost use Rattle.keel_base.specs.Name.{name_eq, IsName};
ghost use Rattle.keel_name.specs.Sorting.{AreNames, HaveSameSizes, IsPlace, IsSorted, TakesIn, entries};

use crate::print;
use crate::spelled::Spelled;
use keel_base::{Entry, FileName, Listing, OutOfMemory, same_name};
use std::alloc::Global;

/// The files in the order of listings. Of several with one name the first counts.
pub fn listed(alloc: Global, files: &[Entry]) -> Result<Listing, OutOfMemory>
    requires { AreNames files.now }
    ensures order { IfOk result IsListing }
    ensures sizes { IfOk result (λ listing. HaveSameSizes listing files.now) }
{
    let sorted = sorted(alloc, files)?;
    let mut listing = Listing::new(alloc);
    for spelled in &sorted {
        listing.push(spelled.entry)?;
    }
    Ok(listing)
}

fn sorted(alloc: Global, files: &[Entry]) -> Result<Vec<Spelled>, OutOfMemory>
    requires { AreNames files.now }
    ensures order { IfOk result (λ sorted. IsSorted sorted.items) }
    ensures sizes { IfOk result (λ sorted. HaveSameSizes (entries sorted.items) files.now) }
{
    let mut sorted = Vec::new(alloc);
    for entry in files {
        let spelling = print(alloc, entry.name)?;
        insert(
            &mut sorted,
            Spelled {
                entry: *entry,
                spelling,
            },
        )?;
    }
    Ok(sorted)
}

// Puts a file at its place, unless one of its name is there.
fn insert(sorted: &mut Vec<Spelled>, spelled: Spelled) -> Result<(), OutOfMemory>
    requires named { IsName spelled.entry.name }
    requires sorted { IsSorted sorted.old.items }
    ensures { OnOk result (TakesIn spelled.entry sorted.old.items sorted.new.items) }
{
    let place = place_of(sorted, spelled.spelling.as_slice());
    if is_at(sorted, place, spelled.entry.name) {
        return Ok(());
    }
    sorted.insert(place, spelled)?;
    Ok(())
}

// The place of the first name that isn't printed before this.
fn place_of(sorted: &[Spelled], spelling: &[u8]) -> usize
    ensures { IsPlace spelling.now sorted.now result }
{
    for (place, other) in sorted.iter().enumerate() {
        if !is_before(other.spelling.as_slice(), spelling) {
            return place;
        }
    }
    sorted.len()
}

// Whether bytes come before others in the order of listings.
fn is_before(one: &[u8], other: &[u8]) -> bool
    ensures { result ≡ key_lt one.now other.now }
{
    one.cmp(other).is_lt()
}

// Whether the file at a place has this name.
fn is_at(sorted: &[Spelled], place: usize, name: FileName) -> bool
    ensures { MatchOption (slice_get sorted.now place) (result ≡ false) (λ other. result ≡ name_eq other.entry.name name) }
{
    match sorted.get(place) {
        None => false,
        Some(other) => same_name(other.entry.name, name),
    }
}
