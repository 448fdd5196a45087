// What a directory holds short of its logs.
ghost use Rattle.std.specs.Prelude.{◌≡◌, IfOk, None, Ok, Option, Some};
ghost use Rattle.keel_disk.specs.Listings.{IsListing};
ghost use Rattle.keel_disk.specs.Seen.{IsQuiet};
ghost use Rattle.keel_disk.specs.Told.{Told, TellsListing};
ghost use Rattle.keel_open.specs.Bases.{BaseTells};
ghost use Rattle.keel_open.specs.Manifests.{CurrentTells};
ghost use Rattle.keel_open.specs.NextFiles.{IsNextFile};
ghost use Rattle.keel_open.specs.Refusals.{fault_in};

use crate::listing::{first_used, next_file};
use crate::manifest::{current_manifest, read_edits};
use crate::refusal::OpenRefusal;
use crate::tables::check_tables;
use keel_base::Listing;
use keel_disk::Disk;
use keel_version::Version;
use std::alloc::Global;

/// What a directory holds short of its logs.
#[derive(Debug, Drop)]
pub struct BaseFound {
    /// The tables, which are all there and open. A new store has none.
    pub version: Version,
    /// The number of the manifest that CURRENT names, and `None` for a new store.
    pub manifest: Option<u64>,
    /// How many edits that manifest has.
    pub edits: u64,
    /// The number of the next file.
    pub next_file: u64,
    /// All files, with their sizes.
    pub listing: Listing,
}

/// A directory without CURRENT: that of a new store, unless a file is in use.
fn without_current(alloc: Global, listing: Listing) -> Result<BaseFound, OpenRefusal>
    requires { IsListing listing }
    ensures base { (told : Option Told) → TellsListing told listing → CurrentTells told (Ok None) → BaseTells told result }
    ensures next { IfOk result (λ found. IsNextFile found.listing found.version.next_file found.next_file) }
    ensures listing { IfOk result (λ found. found.listing ≡ listing) }
    ensures none { fault_in result ≡ None }
{
    match first_used(listing.as_slice()) {
        Some(file) => Err(OpenRefusal::NoCurrent { file }),
        None => Ok(BaseFound {
            version: Version::empty(alloc),
            manifest: None,
            edits: 0,
            next_file: next_file(listing.as_slice(), 0),
            listing,
        }),
    }
}

/// A directory whose CURRENT names that manifest.
fn with_current<D: Disk>(
    alloc: Global,
    disk: &mut D,
    listing: Listing,
    number: u64,
) -> Result<BaseFound, OpenRefusal>
    requires tells { TellsListing (D.seen disk.old).told listing }
    requires order { IsListing listing }
    requires current { CurrentTells (D.seen disk.old).told (Ok (Some number)) }
    ensures base { BaseTells (D.seen disk.old).told result }
    ensures next { IfOk result (λ found. IsNextFile found.listing found.version.next_file found.next_file) }
    ensures listing { IfOk result (λ found. found.listing ≡ listing) }
    ensures quiet { IsQuiet (D.seen disk.old) (fault_in result) (D.seen disk.new) }
{
    let edits = match read_edits(alloc, disk, number) {
        Ok(edits) => edits,
        Err(refusal) => return Err(refusal),
    };
    match check_tables(alloc, disk, listing.as_slice(), edits.version.as_slice()) {
        Ok(()) => {}
        Err(refusal) => return Err(refusal),
    }
    let next_file = next_file(listing.as_slice(), edits.version.next_file());
    Ok(BaseFound {
        version: edits.version,
        manifest: Some(number),
        edits: edits.count,
        next_file,
        listing,
    })
}

/// Reads what a directory holds short of its logs: the files, CURRENT, its manifest's edits up to the first bad
/// fragment, and footer and index of each table. It makes no changing call.
pub fn read_base<D: Disk>(alloc: Global, disk: &mut D) -> Result<BaseFound, OpenRefusal>
    // What the directory gives each answer, where the device tells it.
    ensures base { BaseTells (D.seen disk.old).told result }
    // The next file's number is over those of all files.
    ensures next { IfOk result (λ found. IsNextFile found.listing found.version.next_file found.next_file) }
    // The listing is the device's.
    ensures tells { IfOk result (λ found. TellsListing (D.seen disk.old).told found.listing) }
    ensures order { IfOk result (λ found. IsListing found.listing) }
    // Device comes only where the device counted that fault, as the last one.
    ensures quiet { IsQuiet (D.seen disk.old) (fault_in result) (D.seen disk.new) }
{
    let listing = disk.list(alloc)?;
    match current_manifest(alloc, disk) {
        Ok(None) => without_current(alloc, listing),
        Ok(Some(number)) => with_current(alloc, disk, listing, number),
        Err(refusal) => Err(refusal),
    }
}
