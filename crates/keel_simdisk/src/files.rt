// Changes of one file of a vector. A number past the end names no file, and nothing changes.
ghost use Rattle.std.specs.Prelude.{◌≡◌, ◌≤◌, length, slice_set, OnOk, OnErr};
ghost use Rattle.keel_disk.specs.State.{file_at, shortened, files_operated_all};
ghost use Rattle.keel_disk.specs.Step.{extended, spoiled, synced, cut_read};

use keel_base::OutOfMemory;
use keel_disk::{File, Operation};

// Adds bytes, of which the first `kept` are read.
fn extend(file: &mut File, bytes: &[u8], kept: usize) -> Result<(), OutOfMemory>
    requires { kept ≤ length bytes.now }
    ensures ok { OnOk result (file.new ≡ extended bytes.now kept file.old) }
    ensures err { OnErr result (file.new ≡ file.old) }
{
    let before = file.meant.len();
    file.meant.extend(bytes)?;
    if let Err(error) = file.read.extend(&bytes[..kept]) {
        file.meant.truncate(before);
        return Err(error);
    }
    Ok(())
}

/// Adds bytes, of which the first `kept` are read.
pub fn extend_at(
    files: &mut Vec<File>,
    number: usize,
    bytes: &[u8],
    kept: usize,
) -> Result<(), OutOfMemory>
    requires { kept ≤ length bytes.now }
    ensures ok { OnOk result (files.new.items ≡ slice_set files.old.items number (extended bytes.now kept (file_at number files.old.items))) }
    ensures err { OnErr result (files.new.items ≡ files.old.items) }
{
    if number < files.len() {
        let file = &mut files[number];
        extend(file, bytes, kept)?;
    }
    Ok(())
}

/// The same, and the file is spoilt.
pub fn extend_spoilt_at(
    files: &mut Vec<File>,
    number: usize,
    bytes: &[u8],
    kept: usize,
) -> Result<(), OutOfMemory>
    requires { kept ≤ length bytes.now }
    ensures ok { OnOk result (files.new.items ≡ slice_set files.old.items number (spoiled (extended bytes.now kept (file_at number files.old.items)))) }
    ensures err { OnErr result (files.new.items ≡ files.old.items) }
{
    if number < files.len() {
        let file = &mut files[number];
        extend(file, bytes, kept)?;
        file.spoilt = true;
    }
    Ok(())
}

/// Makes a file firm, unless it is spoilt.
pub fn sync_at(files: &mut Vec<File>, number: usize)
    ensures { files.new.items ≡ slice_set files.old.items number (synced (file_at number files.old.items)) }
{
    if number < files.len() {
        let file = &mut files[number];
        if !file.spoilt {
            file.firm = file.meant.len();
        }
    }
}

/// Makes a file one that no sync makes firm.
pub fn spoil_at(files: &mut Vec<File>, number: usize)
    ensures { files.new.items ≡ slice_set files.old.items number (spoiled (file_at number files.old.items)) }
{
    if number < files.len() {
        let file = &mut files[number];
        file.spoilt = true;
    }
}

/// Lets reads see the first bytes alone.
pub fn cut_read_at(files: &mut Vec<File>, number: usize, length: usize)
    ensures { files.new.items ≡ slice_set files.old.items number (cut_read length (file_at number files.old.items)) }
{
    if number < files.len() {
        let file = &mut files[number];
        file.read.truncate(length);
    }
}

// Makes a cut firm.
fn shorten_at(files: &mut Vec<File>, number: usize, length: usize)
    ensures { files.new.items ≡ slice_set files.old.items number (shortened length (file_at number files.old.items)) }
{
    if number < files.len() {
        let file = &mut files[number];
        file.meant.truncate(length);
        file.firm = length.min(file.firm);
    }
}

/// Files behind operations in order.
pub fn shorten_all(files: &mut Vec<File>, operations: &[Operation])
    ensures { files.new.items ≡ files_operated_all operations.now files.old.items }
{
    for operation in operations {
        if let Operation::Shorten { file, length } = *operation {
            shorten_at(files, file, length);
        }
    }
}
