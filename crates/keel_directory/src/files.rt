// The files of a directory.
ghost use Rattle.std.specs.Prelude.{◌≡◌, IfOk, Some, if◌then◌else◌, option_map};
ghost use Rattle.keel_base.specs.Name.{listed_before};
ghost use Rattle.keel_disk.specs.Directory as directory;
ghost use Rattle.keel_directory.specs.Reading as spec;

use keel_base::{Bytes, FileName, OutOfMemory, same_name};
use keel_name::print;
use std::alloc::Global;

/// A file with its name.
pub type File = (FileName, Bytes);

/// The bytes of a file.
pub(crate) fn find(files: &[File], name: FileName) -> Option<&[u8]>
    ensures { option_map (λ bytes. bytes.now) result ≡ directory.find name files.now }
{
    for file in files {
        if same_name(file.0, name) {
            return Some(file.1.as_slice());
        }
    }
    None
}

fn is_listed_before(alloc: Global, one: FileName, other: FileName) -> Result<bool, OutOfMemory>
    ensures { IfOk result (λ before. before ≡ listed_before one other) }
{
    let one = print(alloc, one)?;
    let other = print(alloc, other)?;
    Ok(one.as_slice().cmp(other.as_slice()).is_lt())
}

fn earlier(alloc: Global, name: FileName, found: Option<FileName>) -> Result<FileName, OutOfMemory>
    ensures { IfOk result (λ first. Some first ≡ spec.earlier name found) }
{
    match found {
        None => Ok(name),
        Some(other) => {
            if is_listed_before(alloc, other, name)? {
                Ok(other)
            } else {
                Ok(name)
            }
        }
    }
}

fn is_used(file: &File) -> bool
    ensures { result ≡ spec.is_used file.now }
{
    match file.0 {
        FileName::Table(_) | FileName::Trash(_) => true,
        FileName::Log(_) => file.1.len() != 0,
        FileName::Manifest(_) | FileName::Current | FileName::Temp(_) => false,
    }
}

/// The first of a file, where it is one that a new store doesn't have, and of what was found behind it.
fn first_of(
    alloc: Global,
    file: &File,
    found: Option<FileName>,
) -> Result<Option<FileName>, OutOfMemory>
    ensures { IfOk result (λ first. first ≡ (if spec.is_used file.now then spec.earlier file.now.0 found else found)) }
{
    if is_used(file) {
        Ok(Some(earlier(alloc, file.0, found)?))
    } else {
        Ok(found)
    }
}

/// The first file of the listing that a new store doesn't have.
pub(crate) fn first_used(alloc: Global, files: &[File]) -> Result<Option<FileName>, OutOfMemory>
    ensures { IfOk result (λ found. found ≡ spec.first_used files.now) }
{
    let mut found = None;
    let mut left = files.len();
    'files: while left > 0 {
        left -= 1;
        found = first_of(alloc, &files[left], found)?;
    }
    Ok(found)
}
