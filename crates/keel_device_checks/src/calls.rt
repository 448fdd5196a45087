// The calls of a device, each in a function without clauses, so that a test's proof doesn't meet all that it ensures.
ghost use Rattle.keel_base.specs.Name.{IsName};

use keel_base::{Fault, FileName};
use keel_disk::{Disk, DiskError, ReadError, read_file};
use std::alloc::Global;

pub const LOG: FileName = FileName::Log(1);

pub const TABLE: FileName = FileName::Table(2);

pub fn creates<D: Disk>(alloc: Global, disk: &mut D, name: FileName) -> bool
    requires { IsName name }
{
    disk.create(alloc, name) == Ok(())
}

pub fn appends<D: Disk>(alloc: Global, disk: &mut D, bytes: &[u8]) -> bool {
    disk.append(alloc, LOG, bytes) == Ok(())
}

/// Whether an append fails with this fault.
pub fn is_refused<D: Disk>(alloc: Global, disk: &mut D, bytes: &[u8], fault: Fault) -> bool {
    disk.append(alloc, LOG, bytes) == Err(DiskError::Fault(fault))
}

pub fn syncs<D: Disk>(alloc: Global, disk: &mut D) -> bool {
    disk.sync(alloc, LOG) == Ok(())
}

pub fn syncs_names<D: Disk>(alloc: Global, disk: &mut D) -> bool {
    disk.sync_dir(alloc) == Ok(())
}

/// Gives the log the name of the table.
pub fn renames<D: Disk>(alloc: Global, disk: &mut D) -> bool {
    disk.rename(alloc, LOG, TABLE) == Ok(())
}

pub fn removes<D: Disk>(alloc: Global, disk: &mut D, name: FileName) -> bool {
    disk.remove(alloc, name) == Ok(())
}

pub fn cuts<D: Disk>(alloc: Global, disk: &mut D, length: u64) -> bool {
    disk.cut(alloc, LOG, length) == Ok(())
}

/// Whether a file has these bytes.
pub fn has<D: Disk>(alloc: Global, disk: &mut D, name: FileName, bytes: &[u8]) -> bool {
    match disk.read_at(alloc, name, 0, 100) {
        Ok(found) => found.as_slice() == bytes,
        Err(_) => false,
    }
}

/// Whether the log, read whole, is this.
pub fn is_whole<D: Disk>(alloc: Global, disk: &mut D, bytes: &[u8]) -> bool {
    let Ok(size) = disk.size(alloc, LOG) else {
        return false;
    };
    match read_file(alloc, disk, LOG, size) {
        Ok(found) => found.as_slice() == bytes,
        Err(_) => false,
    }
}

pub fn has_size<D: Disk>(alloc: Global, disk: &mut D, name: FileName, size: u64) -> bool {
    disk.size(alloc, name) == Ok(size)
}

pub fn is_absent<D: Disk>(alloc: Global, disk: &mut D, name: FileName) -> bool {
    disk.size(alloc, name) == Err(ReadError::Absent)
}

/// Whether the log is the only file.
pub fn lists_the_log<D: Disk>(alloc: Global, disk: &mut D) -> bool {
    match disk.list(alloc) {
        Ok(listing) => match listing.as_slice() {
            [entry] => entry.name == LOG,
            _ => false,
        },
        Err(_) => false,
    }
}

/// Whether there is room for so many bytes.
pub fn has_free<D: Disk>(alloc: Global, disk: &mut D, bytes: u64) -> bool {
    disk.free(alloc) == Ok(bytes)
}
