// The reading of a directory.
ghost use Rattle.keel_directory.specs.Answers.{HoldsAs, Reads};

use crate::answer::{Directory, DirectoryRefusal, Held, Pairs};
use crate::files::{File, find, first_used};
use crate::logs::{add_batches, replay};
use crate::manifest::{current_manifest, manifest_version};
use crate::newest::pairs_of;
use crate::tables::table_rows;
use keel_base::FileName;
use std::alloc::Global;

/// What a directory whose CURRENT has these bytes holds.
fn held(alloc: Global, files: &[File], current: &[u8]) -> Result<Held, DirectoryRefusal>
    ensures { HoldsAs files.now current.now result }
{
    let manifest = current_manifest(alloc, current)?;
    let version = manifest_version(alloc, find(files, FileName::Manifest(manifest)))?;
    let tables = version.tables(alloc)?;
    let mut rows = table_rows(alloc, files, tables.as_slice())?;
    let (batches, last) = replay(alloc, files, version.min_log(), version.last_seq())?;
    add_batches(alloc, batches.as_slice(), &mut rows)?;
    let pairs = Pairs::from_vec(pairs_of(alloc, rows.as_slice())?);
    Ok(Held {
        manifest,
        version,
        pairs,
        last,
    })
}

/// What a directory says as a store, or why it isn't read.
///
/// It is slow and takes its steps as the definition does: look-ups go through all files, and all rows of all tables
/// and logs stand in memory. It is what faster reading is measured against.
pub fn read_directory(alloc: Global, files: &[File]) -> Result<Directory, DirectoryRefusal>
    ensures { Reads files.now result }
{
    match find(files, FileName::Current) {
        Some(current) => Ok(Directory::Held(held(alloc, files, current)?)),
        None => match first_used(alloc, files)? {
            None => Ok(Directory::New),
            Some(file) => Err(DirectoryRefusal::NoCurrent { file }),
        },
    }
}
