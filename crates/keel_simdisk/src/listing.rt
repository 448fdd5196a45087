// The listing of a directory.
ghost use Rattle.std.specs.Prelude.{◌≡◌, length, map, IfOk};
ghost use Rattle.keel_disk.specs.State.{file_at};
ghost use Rattle.keel_disk.specs.Sound.{AreOwn};
ghost use Rattle.keel_disk.specs.Listings.{IsListing};
ghost use Rattle.keel_simdisk.specs.Listings.{GivesSizes, entry_in};

use keel_base::{Entry, FileName, Listing, OutOfMemory};
use keel_disk::File;
use std::alloc::Global;

fn size_at(files: &[File], number: usize) -> u64
    ensures { result ≡ length (file_at number files.now).read }
{
    if number < files.len() {
        let file = &files[number];
        file.read.len() as u64
    } else {
        0
    }
}

// The files of a directory, as they stand there.
fn entries(
    alloc: Global,
    files: &[File],
    names: &[(FileName, usize)],
) -> Result<Vec<Entry>, OutOfMemory>
    ensures { IfOk result (λ entries. entries.items ≡ map (entry_in files.now) names.now) }
{
    let mut entries = Vec::new(alloc);
    for named in names {
        let (name, number) = *named;
        let size = size_at(files, number);
        entries.push(Entry { name, size })?;
    }
    Ok(entries)
}

/// The listing of a directory.
pub fn listed(
    alloc: Global,
    files: &[File],
    names: &[(FileName, usize)],
) -> Result<Listing, OutOfMemory>
    requires { AreOwn (length files.now) names.now }
    ensures sizes { IfOk result (GivesSizes files.now names.now) }
    ensures order { IfOk result IsListing }
{
    let entries = entries(alloc, files, names)?;
    keel_name::listed(alloc, &entries)
}
