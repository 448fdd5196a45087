// The next deletion, and its call.
ghost use Rattle.std.specs.Prelude.{◌≡◌};
ghost use Rattle.keel_base.specs.Name.{IsName};
ghost use Rattle.keel_disk.specs.Seen.{Calls};
ghost use Rattle.keel_trash.specs.Next.{retirement as retirement_of, trash_deletion as trash_deletion_of};
ghost use Rattle.keel_trash.specs.Steps.{change_of, answer_of, IsPossible};

use crate::entry::{Names, Retired, trash_name};
use crate::step::DeleteStep;
use keel_base::{Entry, FileName};
use keel_disk::{Disk, DiskError};
use std::alloc::Global;

// What a step does.
#[derive(Clone, Copy, Debug)]
pub enum Next {
    Rest,
    Wait { until: u64 },
    Delete(Deletion),
}

// One call on the device for the first entry of a queue.
#[derive(Clone, Copy, Debug)]
pub enum Deletion {
    Purge {
        name: FileName,
    },
    // A table, at once.
    Remove {
        name: FileName,
    },
    Rename {
        name: FileName,
        trash: FileName,
        size: u64,
    },
    // Behind a refused rename: first the table's own name, then its trash name.
    RemovePlain {
        name: FileName,
    },
    RemoveRenamed {
        name: FileName,
        trash: FileName,
    },
    // Cuts trash by so many bytes.
    Cut {
        name: FileName,
        length: u64,
        taken: u64,
    },
    RemoveTrash {
        name: FileName,
        size: u64,
    },
}

impl Deletion {
    pub fn call<D: Disk>(self, alloc: Global, disk: &mut D) -> Result<(), DiskError>
        requires { IsPossible self }
        ensures { Calls (D.seen disk.old) (change_of self) result (D.seen disk.new) }
    {
        match self {
            Deletion::Purge { name } => disk.remove(alloc, name),
            Deletion::Remove { name } => disk.remove(alloc, name),
            Deletion::Rename { name, trash, .. } => disk.rename(alloc, name, trash),
            Deletion::RemovePlain { name } => disk.remove(alloc, name),
            Deletion::RemoveRenamed { trash, .. } => disk.remove(alloc, trash),
            Deletion::Cut { name, length, .. } => disk.cut(alloc, name, length),
            Deletion::RemoveTrash { name, .. } => disk.remove(alloc, name),
        }
    }

    // What the step answers where the call is done.
    pub fn answer(self) -> DeleteStep
        ensures { result ≡ answer_of self }
    {
        match self {
            Deletion::Purge { name } => DeleteStep::Purged(name),
            Deletion::Remove { name } => DeleteStep::Removed(name),
            Deletion::Rename { name, .. } => DeleteStep::Trashed(name),
            Deletion::RemovePlain { name } => DeleteStep::Removed(name),
            Deletion::RemoveRenamed { trash, .. } => DeleteStep::Removed(trash),
            Deletion::Cut { name, length, .. } => DeleteStep::Cut { name, length },
            Deletion::RemoveTrash { name, .. } => DeleteStep::Removed(name),
        }
    }
}

// What is done to a retired table.
pub fn retirement(entry: Retired, at_once: bool) -> Deletion
    ensures { result ≡ retirement_of at_once entry.names entry.name entry.size }
{
    let Retired { name, size, names } = entry;
    match names {
        Names::Plain => {
            if at_once {
                return Deletion::Remove { name };
            }
            Deletion::Rename {
                name,
                trash: trash_name(name),
                size,
            }
        }
        Names::Both => Deletion::RemovePlain { name },
        Names::TrashOnly => Deletion::RemoveRenamed {
            name,
            trash: trash_name(name),
        },
    }
}

// Trash is cut by chunks while it is larger than one.
pub fn trash_deletion(file: Entry, chunk: u64) -> Deletion
    ensures { result ≡ trash_deletion_of chunk file }
{
    let Entry { name, size } = file;
    if chunk != 0 && chunk < size {
        return Deletion::Cut {
            name,
            length: size - chunk,
            taken: chunk,
        };
    }
    Deletion::RemoveTrash { name, size }
}
