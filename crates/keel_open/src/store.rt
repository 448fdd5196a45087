// What a directory holds as a store.
ghost use Rattle.std.specs.Prelude.{◌≡◌, IfOk, Ok};
ghost use Rattle.keel_disk.specs.Listings.{IsListing};
ghost use Rattle.keel_disk.specs.Seen.{IsQuiet};
ghost use Rattle.keel_disk.specs.Told.{TellsListing};
ghost use Rattle.keel_directory.specs.Replays.{run_on};
ghost use Rattle.keel_open.specs.NextFiles.{IsNextFile};
ghost use Rattle.keel_open.specs.Refusals.{fault_in};
ghost use Rattle.keel_open.specs.Stores.{StoreTells, refusal_of_logs};

use crate::base::read_base;
use crate::refusal::OpenRefusal;
use keel_base::Listing;
use keel_directory::Replayed as LogBatch;
use keel_disk::Disk;
use keel_version::Version;
use keel_wal::{ReplayError, replay};
use std::alloc::Global;

/// What a directory holds as a store.
#[derive(Debug, Drop)]
pub struct StoreFound {
    /// The tables, which are all there and open. A new store has none.
    pub version: Version,
    /// The batches of the logs, log by log in order of number.
    pub batches: Vec<LogBatch>,
    /// The numbers of all logs from the version's least one on, rising.
    pub logs: Vec<u64>,
    /// The number of the last op.
    pub last_seq: u64,
    /// The number of the next file.
    pub next_file: u64,
    /// The number of the manifest that CURRENT names, and `None` for a new store.
    pub manifest: Option<u64>,
    /// How many edits that manifest has.
    pub edits: u64,
    /// All files, with their sizes.
    pub listing: Listing,
}

/// A refusal of logs, as one of the opening.
fn refusal_for(error: ReplayError) -> OpenRefusal
    ensures { result ≡ refusal_of_logs error }
{
    match error {
        ReplayError::Device(fault) => OpenRefusal::Device(fault),
        ReplayError::BadLog { log, at } => OpenRefusal::BadLog { log, at },
        ReplayError::LogGap {
            log,
            expected,
            found,
        } => OpenRefusal::LogGap {
            log,
            expected,
            found,
        },
        ReplayError::OutOfMemory => OpenRefusal::OutOfMemory,
    }
}

/// Reads a store's directory: CURRENT, its manifest's edits and the logs, each up to the first bad fragment, and footer
/// and index of each table. It makes no changing call.
pub fn read_store<D: Disk>(alloc: Global, disk: &mut D) -> Result<StoreFound, OpenRefusal>
    // The answer is the reading of the directory, where the device tells it.
    ensures store { StoreTells (D.seen disk.old).told result }
    // Batches that are found run on from the version's last number, whatever the device tells.
    ensures runs_on { IfOk result (λ found. run_on found.version.last_seq found.batches.items ≡ Ok found.last_seq) }
    // The next file's number is over those of all files.
    ensures next { IfOk result (λ found. IsNextFile found.listing found.version.next_file found.next_file) }
    // The listing is the device's.
    ensures tells { IfOk result (λ found. TellsListing (D.seen disk.old).told found.listing) }
    ensures order { IfOk result (λ found. IsListing found.listing) }
    // Device comes only where the device counted that fault, as the last one.
    ensures quiet { IsQuiet (D.seen disk.old) (fault_in result) (D.seen disk.new) }
{
    let base = match read_base(alloc, disk) {
        Ok(base) => base,
        Err(refusal) => return Err(refusal),
    };
    match replay(alloc, disk, base.version.min_log(), base.version.last_seq()) {
        Ok(found) => Ok(StoreFound {
            version: base.version,
            batches: found.batches,
            logs: found.logs,
            last_seq: found.last_seq,
            next_file: base.next_file,
            manifest: base.manifest,
            edits: base.edits,
            listing: base.listing,
        }),
        Err(error) => Err(refusal_for(error)),
    }
}
