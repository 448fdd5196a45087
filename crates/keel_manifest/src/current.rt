// Which manifest is in use.
ghost use Rattle.std.specs.Prelude.{◌≡◌, take};
ghost use Rattle.keel_disk.specs.Seen.{IsQuiet};
ghost use Rattle.keel_manifest.specs.Current.{NamesIn, IsBad, fault_in};

use keel_base::{Bytes, Fault, FileName, OutOfMemory};
use keel_disk::{Disk, DiskError, ReadError, read_file};
use std::alloc::Global;

/// Why no manifest is named.
#[derive(Debug, Drop)]
pub enum CurrentError {
    /// CURRENT isn't the name of a manifest and a newline. These are its bytes, the first 64 at most.
    BadCurrent { bytes: Bytes },
    /// The device failed.
    Device(Fault),
    OutOfMemory,
}

/// The number of the manifest that CURRENT names, and `None` exactly where there is no CURRENT. Nothing is changed.
pub fn read_current<D: Disk>(alloc: Global, disk: &mut D) -> Result<Option<u64>, CurrentError>
    ensures names { NamesIn (D.seen disk.old).told result }
    ensures quiet { IsQuiet (D.seen disk.old) (fault_in result) (D.seen disk.new) }
{
    let size = match disk.size(alloc, FileName::Current) {
        Ok(size) => size,
        Err(ReadError::Absent) => return Ok(None),
        Err(ReadError::Fault(fault)) => return Err(CurrentError::Device(fault)),
        Err(ReadError::OutOfMemory) => return Err(CurrentError::OutOfMemory),
    };
    let bytes = match read_file(alloc, disk, FileName::Current, size) {
        Ok(bytes) => bytes,
        Err(DiskError::Fault(fault)) => return Err(CurrentError::Device(fault)),
        Err(DiskError::OutOfMemory) => return Err(CurrentError::OutOfMemory),
    };
    match keel_name::read_current(bytes.as_slice()) {
        Some(number) => Ok(Some(number)),
        None => Err(bad_current(alloc, bytes.as_slice())),
    }
}

// The refusal with the first bytes.
fn bad_current(alloc: Global, bytes: &[u8]) -> CurrentError
    ensures { IsBad bytes.now result }
{
    match Bytes::from_slice(alloc, first_64(bytes)) {
        Ok(bytes) => CurrentError::BadCurrent { bytes },
        Err(OutOfMemory) => CurrentError::OutOfMemory,
    }
}

fn first_64(bytes: &[u8]) -> &[u8]
    ensures { result.now ≡ take 64 bytes.now }
{
    if bytes.len() <= 64 {
        return bytes;
    }
    let (front, _) = bytes.split_at(64);
    front
}
