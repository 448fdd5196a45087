// Reading the logs of a device.
ghost use Rattle.std.specs.Prelude.{◌≡◌, ◌<◌, ◌≤◌, ◌^◌, [], ◌∷◌, ◌++◌, IfOk, OnOk};
ghost use Rattle.keel_disk.specs.Counts.{disk_fault};
ghost use Rattle.keel_disk.specs.Listings.{IsListing};
ghost use Rattle.keel_disk.specs.Seen.{IsQuiet};
ghost use Rattle.keel_disk.specs.Told.{TellsListing};
ghost use Rattle.keel_directory.specs.Answers.{IsOfLogs};
ghost use Rattle.keel_wal.specs.Refusals.{refusal_for, error_for};
ghost use Rattle.keel_wal.specs.Replays.{file_of, LogsTold, ReplayAnswers, RunsOn, fault_in};

use keel_base::{Bytes, Fault, FileName, Listing, OutOfMemory};
use keel_directory::{DirectoryRefusal, LogFile, Replayed as LogBatch, replay_logs};
use keel_disk::{Disk, DiskError, read_file};
use keel_listing::next_log;
use std::alloc::Global;

/// What logs give.
#[derive(Debug, Drop)]
pub struct Replayed {
    /// Their batches, log by log in order of number.
    pub batches: Vec<LogBatch>,
    /// The numbers of all logs that were listed, also of those without a byte, rising.
    pub logs: Vec<u64>,
    /// The number of the last op, or the one given where there is none.
    pub last_seq: u64,
}

/// Why logs aren't read. The device is as it was.
#[derive(Clone, Copy, Debug, PartialEq, Eq)]
pub enum ReplayError {
    /// A read failed. The device has counted the fault.
    Device(Fault),
    /// A whole record of this log isn't a batch. Its first fragment stands `at` that place, in bytes.
    BadLog { log: u64, at: u64 },
    /// A batch of this log has the number `found`, where the ops before it end with the one before `expected`. All records
    /// of all logs are batches then.
    LogGap { log: u64, expected: u64, found: u64 },
    /// Memory was refused.
    OutOfMemory,
}

impl From<OutOfMemory> for ReplayError {
    ghost use Rattle.std.specs.Prelude.{◌≡◌};
    ghost use Rattle.keel_wal.specs.declared.reading.ReplayError.TheVariants.{OutOfMemory};

    ghost from_gives = { λ _ e. e ≡ OutOfMemory };

    fn from(_: OutOfMemory) -> Self {
        ReplayError::OutOfMemory
    }
}

impl From<DiskError> for ReplayError {
    ghost use Rattle.std.specs.Prelude.{◌≡◌};
    ghost use Rattle.keel_wal.specs.Refusals.{refusal_for};

    ghost from_gives = { λ error e. e ≡ refusal_for error };

    fn from(error: DiskError) -> Self {
        match error {
            DiskError::Fault(fault) => ReplayError::Device(fault),
            DiskError::OutOfMemory => ReplayError::OutOfMemory,
        }
    }
}

// The files of logs that have a byte, and the numbers of all logs.
#[derive(Drop)]
struct LogFiles {
    files: Vec<LogFile>,
    numbers: Vec<u64>,
}

impl LogFiles {
    fn new(alloc: Global) -> LogFiles
        ensures files { result.files.items ≡ [] }
        ensures numbers { result.numbers.items ≡ [] }
    {
        LogFiles {
            files: Vec::new(alloc),
            numbers: Vec::new(alloc),
        }
    }

    fn add(&mut self, number: u64, bytes: Bytes) -> Result<(), OutOfMemory>
        ensures files { OnOk result (self.new.files.items ≡ self.old.files.items ++ file_of number bytes) }
        ensures numbers { OnOk result (self.new.numbers.items ≡ self.old.numbers.items ++ number ∷ []) }
    {
        self.numbers.push(number)?;
        if bytes.len() == 0 {
            return Ok(());
        }
        self.files.push(LogFile { number, bytes })?;
        Ok(())
    }
}

// Reads the logs of a listing in order of their numbers.
fn read_listed<D: Disk>(
    alloc: Global,
    disk: &mut D,
    listing: &Listing,
    min_log: u64,
) -> Result<LogFiles, DiskError>
    requires tells { TellsListing (D.seen disk.old).told listing.now }
    requires order { IsListing listing.now }
    ensures logs { IfOk result (λ logs. LogsTold (D.seen disk.old).told min_log logs.files.items logs.numbers.items) }
    ensures quiet { IsQuiet (D.seen disk.old) (disk_fault result) (D.seen disk.new) }
{
    let mut logs = LogFiles::new(alloc);
    let mut least = min_log;
    'logs: while let Some(log) = next_log(listing.as_slice(), least) {
        let bytes = read_file(alloc, disk, FileName::Log(log.number), log.size)?;
        logs.add(log.number, bytes)?;
        least = log.number + 1;
    }
    Ok(logs)
}

// The same refusal.
fn named(refusal: DirectoryRefusal) -> ReplayError
    requires { IsOfLogs refusal }
    ensures { result ≡ error_for refusal }
{
    match refusal {
        DirectoryRefusal::BadLog { log, at } => ReplayError::BadLog { log, at },
        DirectoryRefusal::LogGap { log, last, found } => ReplayError::LogGap {
            log,
            expected: last + 1,
            found,
        },
        DirectoryRefusal::OutOfMemory => ReplayError::OutOfMemory,
        DirectoryRefusal::NoCurrent { .. }
        | DirectoryRefusal::BadCurrent { .. }
        | DirectoryRefusal::DamagedManifest { .. }
        | DirectoryRefusal::MissingTable { .. }
        | DirectoryRefusal::BadTable { .. } => unreachable!(),
    }
}

/// Reads the logs from the number `min_log` on in order of their numbers, each up to its first bad fragment, where the last
/// op before them has the number `last_seq`. It makes no changing call.
///
/// A log without a byte counts as absent, but its number is listed.
pub fn replay<D: Disk>(
    alloc: Global,
    disk: &mut D,
    min_log: u64,
    last_seq: u64,
) -> Result<Replayed, ReplayError>
    requires { last_seq ≤ 2 ^ 56 }
    // What logs and bytes give each answer, where the device tells its directory.
    ensures answers { ReplayAnswers (D.seen disk.old).told min_log last_seq result }
    // Batches that are found run on, whatever the device tells.
    ensures runs_on { IfOk result (RunsOn last_seq) }
    // Device comes only where the device counted that fault, as the last one.
    ensures quiet { IsQuiet (D.seen disk.old) (fault_in result) (D.seen disk.new) }
{
    let listing = disk.list(alloc)?;
    let logs = read_listed(alloc, disk, &listing, min_log)?;
    match replay_logs(alloc, logs.files.as_slice(), last_seq) {
        Ok((batches, last_seq)) => Ok(Replayed {
            batches,
            logs: logs.numbers,
            last_seq,
        }),
        Err(refusal) => Err(named(refusal)),
    }
}
