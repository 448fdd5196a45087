// The way to a new manifest.
//
//   MakeManifest -> AppendEdit -> SyncManifest -> MakeTemporary -> AppendName -> SyncTemporary -> Rename -> SyncDirectory
//
// Until the rename is handed in, every crash leaves the manifest in use. From then on it leaves that one or the new one,
// and behind the last call the new one alone. So the new manifest and the temporary file are firm before the rename.
ghost use Rattle.std.specs.Prelude.{◌≡◌, IfOk};
ghost use Rattle.keel_base.specs.Name.{IsFileNumber};
ghost use Rattle.keel_disk.specs.Seen.{Calls};
ghost use Rattle.keel_manifest.specs.Rolls.{change_of, next_behind, word_of};
ghost use Rattle.keel_manifest.specs.declared.roll.RollCall.TheVariants as roll;

use crate::doubts::Doubt;
use crate::manifest::{InUse, Progress};
use keel_base::{Bytes, Call, FileName, OutOfMemory};
use keel_disk::{Disk, DiskError};
use keel_frag::write_record;
use keel_name::print_current;
use std::alloc::Global;
use std::marker::Model;

/// A call of a roll.
#[derive(Clone, Copy, Debug, PartialEq, Eq)]
pub enum RollCall {
    MakeManifest,
    AppendEdit,
    SyncManifest,
    MakeTemporary,
    AppendName,
    SyncTemporary,
    Rename,
    SyncDirectory,
}

impl RollCall {
    /// The call behind it, where there is one.
    pub(crate) fn next(self) -> Option<RollCall>
        ensures { result ≡ next_behind self }
    {
        match self {
            RollCall::MakeManifest => Some(RollCall::AppendEdit),
            RollCall::AppendEdit => Some(RollCall::SyncManifest),
            RollCall::SyncManifest => Some(RollCall::MakeTemporary),
            RollCall::MakeTemporary => Some(RollCall::AppendName),
            RollCall::AppendName => Some(RollCall::SyncTemporary),
            RollCall::SyncTemporary => Some(RollCall::Rename),
            RollCall::Rename => Some(RollCall::SyncDirectory),
            RollCall::SyncDirectory => None,
        }
    }

    /// What it asks of the device.
    pub(crate) fn word(self) -> Call
        ensures { result ≡ word_of self }
    {
        match self {
            RollCall::MakeManifest => Call::Create,
            RollCall::AppendEdit => Call::Append,
            RollCall::SyncManifest => Call::Sync,
            RollCall::MakeTemporary => Call::Create,
            RollCall::AppendName => Call::Append,
            RollCall::SyncTemporary => Call::Sync,
            RollCall::Rename => Call::Rename,
            RollCall::SyncDirectory => Call::SyncDir,
        }
    }
}

/// What a step of a roll did.
#[derive(Clone, Copy, Debug, PartialEq, Eq)]
pub enum Rolled {
    /// It made this call, and has others before it.
    Moved(Call),
    /// It made its last call, and the new manifest is in use.
    Done,
}

/// A roll to a new manifest of this number, whose first edit has these bytes. The temporary file has the manifest's number.
#[derive(Debug, Drop)]
pub struct Roll {
    number: u64,
    edit_record: Bytes,
    next: Option<RollCall>,
}

impl Model for Roll {
    ghost use Rattle.keel_base.specs.Name.{IsFileNumber};
    ghost use Rattle.keel_manifest.specs.Rolls.{RollState};

    ghost Value = { RollState };

    ghost view = { λ r. record { number = r.number; edit_record = r.edit_record; next = r.next } };

    ghost invariant = { λ r. IsFileNumber r.number };
}

impl Roll {
    ghost use Rattle.keel_manifest.specs.Rolls.{begun, doubt_of_roll, rolled_to};

    /// Nothing is made yet. `edit` is an encoded edit.
    pub fn new(alloc: Global, number: u64, edit: &[u8]) -> Result<Roll, OutOfMemory>
        requires { IsFileNumber number }
        ensures { IfOk result (λ roll. roll ≡ begun number edit.now) }
    {
        Ok(Roll {
            number,
            edit_record: write_record(alloc, 0, edit)?,
            next: Some(RollCall::MakeManifest),
        })
    }

    /// The number of the manifest and of the temporary file.
    pub fn number(&self) -> u64
        ensures number { result ≡ self.now.number }
        ensures within { IsFileNumber result }
    {
        self.number
    }

    /// The call that it makes next: none behind the last one, or behind one that failed.
    pub fn next(&self) -> Option<RollCall>
        ensures { result ≡ self.now.next }
    {
        self.next
    }

    // The new manifest, as a crash may leave it.
    pub(crate) fn doubt(&self) -> Doubt
        ensures { result ≡ doubt_of_roll self.now }
    {
        Doubt {
            manifest: self.number,
            edits: 1,
        }
    }

    // The new manifest, as it is in use behind the last call.
    pub(crate) fn in_use(&self) -> InUse
        ensures { result ≡ rolled_to self.now }
    {
        InUse {
            number: self.number,
            edits: 1,
            progress: Progress::Firm {
                length: self.edit_record.len() as u64,
            },
        }
    }

    // The next call is this one, or none.
    pub(crate) fn go_on(&mut self, next: Option<RollCall>)
        ensures { self.new ≡ record self.old { next = next } }
    {
        self.next = next;
    }

    // Makes that call.
    pub(crate) fn make<D: Disk>(
        &self,
        alloc: Global,
        disk: &mut D,
        call: RollCall,
    ) -> Result<(), DiskError>
        ensures { Calls (D.seen disk.old) (change_of self.now call) result (D.seen disk.new) }
    {
        let manifest = FileName::Manifest(self.number);
        let temporary = FileName::Temp(self.number);
        match call {
            RollCall::MakeManifest => disk.create(alloc, manifest),
            RollCall::AppendEdit => disk.append(alloc, manifest, self.edit_record.as_slice()),
            RollCall::SyncManifest => disk.sync(alloc, manifest),
            RollCall::MakeTemporary => disk.create(alloc, temporary),
            RollCall::AppendName => self.append_name(alloc, disk),
            RollCall::SyncTemporary => disk.sync(alloc, temporary),
            RollCall::Rename => disk.rename(alloc, temporary, FileName::Current),
            RollCall::SyncDirectory => disk.sync_dir(alloc),
        }
    }

    fn append_name<D: Disk>(&self, alloc: Global, disk: &mut D) -> Result<(), DiskError>
        ensures { Calls (D.seen disk.old) (change_of self.now roll.AppendName) result (D.seen disk.new) }
    {
        let name = print_current(alloc, self.number)?;
        disk.append(alloc, FileName::Temp(self.number), name.as_slice())
    }
}
