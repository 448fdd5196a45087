// The store's files in a folder.
ghost use Rattle.std.specs.Prelude.{◌≡◌, ◌-◌, ◌^◌, min, sum_by, IfOk, IfSome};
ghost use Rattle.keel_base.specs.Name.{IsName};
ghost use Rattle.keel_name.specs.Sorting.{AreNames};

use crate::stop::Stop;
use keel_base::Entry;
use keel_name::read;
use std::alloc::Global;
use std::fs::{self, DirEntry};
use std::io;
use std::rt::Files;

// An entry of a folder as a file of the store, where its name is one.
fn file_of<R: Files>(entry: &DirEntry<R>) -> Result<Option<Entry>, Stop>
    ensures { IfOk result (λ found. IfSome found (λ file. IsName file.name)) }
{
    let Some(name) = read(entry.file_name().as_bytes()) else {
        return Ok(None);
    };
    let found = entry.metadata()?;
    if !found.is_file() {
        return Err(Stop::Host);
    }
    Ok(Some(Entry {
        name,
        size: found.len(),
    }))
}

// Why a folder's reading stopped. Its own errors tell want of memory, and those of the host have a number.
fn stop_of(error: &io::Error) -> Stop {
    if error.kind() == io::ErrorKind::OutOfMemory && error.raw_os_error().is_none() {
        Stop::OutOfMemory
    } else {
        Stop::Host
    }
}

// Adds an entry of a folder to the files, where it is one of them.
fn add_entry<R: Files>(entry: &DirEntry<R>, files: &mut Vec<Entry>) -> Result<(), Stop>
    requires { AreNames files.old.items }
    ensures { AreNames files.new.items }
{
    if let Some(file) = file_of(entry)? {
        files.push(file)?;
    }
    Ok(())
}

/// The store's files in a folder, in the order in which the host gives them. A name that isn't text is none of
/// the store's.
pub fn files_in<R: Files + AllocGlobal>(
    rt: &R,
    alloc: Global,
    path: &str,
) -> Result<Vec<Entry>, Stop>
    ensures { IfOk result (λ files. AreNames files.items) }
{
    let entries = match fs::read_dir(&rt, path) {
        Ok(entries) => entries,
        Err(error) => return Err(stop_of(&error)),
    };
    let mut files = Vec::new(alloc);
    for entry in entries {
        match entry {
            Ok(entry) => add_entry(&entry, &mut files)?,
            Err(error) if error.kind() == io::ErrorKind::InvalidFilename => {}
            Err(error) => return Err(stop_of(&error)),
        }
    }
    Ok(files)
}

/// How many bytes files have together, up to 2^64 - 1.
pub fn total(files: &[Entry]) -> u64
    ensures { result ≡ min (sum_by (λ file. file.size) files.now) (2 ^ 64 - 1) }
{
    let mut sum: u64 = 0;
    for file in files {
        sum = sum.saturating_add(file.size);
    }
    sum
}
