// Reading a whole file.
ghost use Rattle.std.specs.Prelude.{◌<◌, IfOk, Ok};
ghost use Rattle.keel_disk.specs.Counts.{disk_fault};
ghost use Rattle.keel_disk.specs.Files.{IsContent, Begins, Continues};
ghost use Rattle.keel_disk.specs.Seen.{IsQuiet};
ghost use Rattle.keel_disk.specs.Told.{TellsSize};

use crate::{Disk, DiskError, ReadError};
use keel_base::{Bytes, FileName};
use std::alloc::Global;

/// The next bytes behind the first ones of a file, in one read.
fn read_part<D: Disk>(
    alloc: Global,
    disk: &mut D,
    name: FileName,
    front: &Bytes,
    left: u64,
) -> Result<Bytes, DiskError>
    requires some { 0 < left }
    requires begins { Begins name (D.seen disk.old).told front.now }
    ensures bytes { IfOk result (Continues name (D.seen disk.old).told front.now) }
    ensures quiet { IsQuiet (D.seen disk.old) (disk_fault result) (D.seen disk.new) }
{
    let length = left.min(u64::from(u32::MAX)) as u32;
    match disk.read_at(alloc, name, front.len() as u64, length) {
        Ok(part) => Ok(part),
        Err(ReadError::Fault(fault)) => Err(DiskError::Fault(fault)),
        Err(ReadError::Absent) => Ok(Bytes::new(alloc)),
        Err(ReadError::OutOfMemory) => Err(DiskError::OutOfMemory),
    }
}

/// The bytes of a file that is listed with that size, read in parts of less than 4 GiB. One that has vanished since
/// counts as empty. After a fault nothing of it is handed out.
pub fn read_file<D: Disk>(
    alloc: Global,
    disk: &mut D,
    name: FileName,
    size: u64,
) -> Result<Bytes, DiskError>
    requires { TellsSize name (D.seen disk.old).told (Ok size) }
    ensures bytes { IfOk result (IsContent name (D.seen disk.old).told) }
    ensures quiet { IsQuiet (D.seen disk.old) (disk_fault result) (D.seen disk.new) }
{
    let mut bytes = Bytes::new(alloc);
    'parts: while (bytes.len() as u64) < size {
        let left = size - bytes.len() as u64;
        let part = read_part(alloc, disk, name, &bytes, left)?;
        if part.len() == 0 {
            return Ok(bytes);
        }
        bytes.extend(part.as_slice())?;
    }
    Ok(bytes)
}
