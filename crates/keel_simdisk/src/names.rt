// A directory as a vector of names with file numbers.
ghost use Rattle.std.specs.Prelude.{◌≡◌, ℕ, ◌≤◌, ◌∷◌, ◌++◌, take, drop, vec_len, IfOk, OnOk, OnErr};
ghost use Rattle.keel_disk.specs.Directory.{find, unlinked, linked, operated, operated_all};

use keel_base::{FileName, OutOfMemory, same_name};
use keel_disk::Operation;
use std::alloc::Global;

/// The file of a name.
pub fn find_name(names: &[(FileName, usize)], name: FileName) -> Option<usize>
    ensures { result ≡ find name names.now }
{
    for entry in names {
        if same_name(entry.0, name) {
            return Some(entry.1);
        }
    }
    None
}

// Takes a name out behind the first `start` entries.
fn unlink_from(names: &mut Vec<(FileName, usize)>, start: usize, name: FileName)
    requires { start ≤ vec_len names.old }
    ensures { names.new.items ≡ take start names.old.items ++ unlinked name (drop start names.old.items) }
{
    let mut i = start;
    while i < names.len() {
        if same_name(names[i].0, name) {
            let _ = names.remove(i);
        } else {
            i += 1;
        }
    }
}

// Gives a name to a file.
fn link(names: &mut Vec<(FileName, usize)>, name: FileName, file: usize) -> Result<(), OutOfMemory>
    ensures ok { OnOk result (names.new.items ≡ linked name file names.old.items) }
    ensures err { OnErr result (names.new.items ≡ names.old.items) }
{
    names.insert(0, (name, file))?;
    unlink_from(names, 1, name);
    Ok(())
}

/// Does an operation.
pub fn operate(names: &mut Vec<(FileName, usize)>, operation: Operation) -> Result<(), OutOfMemory>
    ensures ok { OnOk result (names.new.items ≡ operated operation names.old.items) }
    ensures err { OnErr result (names.new.items ≡ names.old.items) }
{
    match operation {
        Operation::Link { name, file } => link(names, name, file),
        Operation::Move { from, to } => {
            match find_name(names, from) {
                None => unlink_from(names, 0, from),
                Some(file) => {
                    names.insert(0, (to, file))?;
                    unlink_from(names, 1, from);
                    unlink_from(names, 1, to);
                }
            }
            Ok(())
        }
        Operation::Unlink { name } => {
            unlink_from(names, 0, name);
            Ok(())
        }
        Operation::Shorten { file: _, length: _ } => Ok(()),
    }
}

/// A directory behind operations in order.
pub fn firm_after(
    alloc: Global,
    firm: &[(FileName, usize)],
    operations: &[Operation],
) -> Result<Vec<(FileName, usize)>, OutOfMemory>
    ensures { IfOk result (λ names. names.items ≡ operated_all operations.now firm.now) }
{
    let mut names = Vec::from_slice(alloc, firm)?;
    for operation in operations {
        operate(&mut names, *operation)?;
    }
    Ok(names)
}
