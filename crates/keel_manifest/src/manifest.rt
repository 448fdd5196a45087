// The manifest in use.
ghost use Rattle.std.specs.Prelude.{◌≡◌, IfOk, IfSome, IsSome};
ghost use Rattle.keel_disk.specs.Seen.{Calls};
ghost use Rattle.keel_disk.specs.declared.change.Change.TheVariants as change;
ghost use Rattle.keel_manifest.specs.Rolls.{change_of, outcome};

use crate::doubts::Doubt;
use crate::roll::{Roll, RollCall, Rolled};
use keel_base::{FileName, OutOfMemory};
use keel_disk::{Disk, DiskError};
use keel_frag::write_record;
use std::alloc::Global;
use std::marker::Model;

/// How far a manifest has come with its edits. Lengths are in bytes.
#[derive(Clone, Copy, Debug, PartialEq, Eq)]
pub enum Progress {
    /// An opening found it. Its end may be torn, so nothing is appended to it: a roll leaves it.
    Found,
    /// Its edits are firm, and it has this length.
    Firm { length: u64 },
    /// Its last edit isn't firm, and with it it has this length.
    Appended { length: u64 },
    /// A call on it failed, so nothing more is written to it: a roll leaves it.
    Failed,
}

/// The manifest that CURRENT names, with how many edits were handed to it.
#[derive(Clone, Copy, Debug, PartialEq, Eq)]
pub struct InUse {
    pub number: u64,
    pub edits: u64,
    pub progress: Progress,
}

/// The manifest in use, and what a crash may leave of manifests.
#[derive(Debug, Drop)]
pub struct Manifest {
    in_use: Option<InUse>,
    doubts: Vec<Doubt>,
}

impl Model for Manifest {
    ghost use Rattle.std.specs.Prelude.{◌<◌, vec_capacity};
    ghost use Rattle.keel_manifest.specs.State.{ManifestState};

    ghost Value = { ManifestState };

    ghost view = { λ m. record { in_use = m.in_use; doubts = m.doubts.items } };

    // There is memory for what a call leaves alone.
    ghost invariant = { λ m. 0 < vec_capacity m.doubts };
}

impl Manifest {
    ghost use Rattle.keel_manifest.specs.State.{ManifestState, named_at_opening, IsFirmAt, IsAppendedTo, appended, append_failed, synced, sync_failed, settled, by_answer};
    ghost use Rattle.keel_manifest.specs.State.{edit_bytes, name_of};
    ghost use Rattle.keel_manifest.specs.Rolls.{RollSteps};

    /// The manifest of this number, which CURRENT named at an opening with so many edits, or none where there was no CURRENT.
    pub fn named(alloc: Global, number: Option<u64>, edits: u64) -> Result<Manifest, OutOfMemory>
        ensures { IfOk result (λ manifest. manifest ≡ named_at_opening number edits) }
    {
        let mut doubts = Vec::new(alloc);
        doubts.reserve(1)?;
        let Some(number) = number else {
            return Ok(Manifest {
                in_use: None,
                doubts,
            });
        };
        doubts.push_reserved(Doubt {
            manifest: number,
            edits,
        });
        let in_use = Some(InUse {
            number,
            edits,
            progress: Progress::Found,
        });
        Ok(Manifest { in_use, doubts })
    }

    /// The manifest in use.
    pub fn in_use(&self) -> Option<InUse>
        ensures { result ≡ self.now.in_use }
    {
        self.in_use
    }

    /// What a crash may leave: each entry is a manifest that CURRENT may name then, and how many of its edits it may have.
    pub fn doubts(&self) -> &[Doubt]
        ensures { result.now ≡ self.now.doubts }
    {
        self.doubts.as_slice()
    }

    /// Appends an encoded edit as a record to the manifest in use. From then on a crash leaves the edits with it or without.
    /// After a fault nothing more may be written to this manifest.
    pub fn edit_append<D: Disk>(
        &mut self,
        alloc: Global,
        disk: &mut D,
        edit: &[u8],
    ) -> Result<(), DiskError>
        requires { IsFirmAt self.old }
        ensures call { Calls (D.seen disk.old) (change.Append (name_of self.old) (edit_bytes self.old edit.now)) result (D.seen disk.new) }
        ensures after { self.new ≡ by_answer result (appended edit.now self.old) (append_failed self.old) self.old }
    {
        let Some(
            InUse {
                number,
                edits,
                progress: Progress::Firm { length },
            },
        ) = self.in_use
        else {
            unreachable!()
        };
        let record = write_record(alloc, length, edit)?;
        let Some(length) = length.checked_add(record.len() as u64) else {
            return Err(DiskError::OutOfMemory);
        };
        let Some(edits) = edits.checked_add(1) else {
            return Err(DiskError::OutOfMemory);
        };
        if self.doubts.reserve(1).is_err() {
            return Err(DiskError::OutOfMemory);
        }
        let answer = disk.append(alloc, FileName::Manifest(number), record.as_slice());
        let progress = match answer {
            Ok(()) => Progress::Appended { length },
            Err(DiskError::Fault(_)) => Progress::Failed,
            Err(DiskError::OutOfMemory) => return answer,
        };
        self.doubts.push_reserved(Doubt {
            manifest: number,
            edits,
        });
        self.in_use = Some(InUse {
            number,
            edits,
            progress,
        });
        answer
    }

    /// Makes the edit that was appended firm. From then on a crash leaves this manifest with all its edits. After a fault it
    /// may still leave the edits without the last one, and nothing more may be written to this manifest.
    pub fn edit_sync<D: Disk>(&mut self, alloc: Global, disk: &mut D) -> Result<(), DiskError>
        requires { IsAppendedTo self.old }
        ensures call { Calls (D.seen disk.old) (change.Sync (name_of self.old)) result (D.seen disk.new) }
        ensures after { self.new ≡ by_answer result (synced self.old) (sync_failed self.old) self.old }
    {
        let Some(
            InUse {
                number,
                edits,
                progress: Progress::Appended { length },
            },
        ) = self.in_use
        else {
            unreachable!()
        };
        let answer = disk.sync(alloc, FileName::Manifest(number));
        let progress = match answer {
            Ok(()) => Progress::Firm { length },
            Err(DiskError::Fault(_)) => Progress::Failed,
            Err(DiskError::OutOfMemory) => return answer,
        };
        if answer.is_ok() {
            self.leave_one(Doubt {
                manifest: number,
                edits,
            });
        }
        self.in_use = Some(InUse {
            number,
            edits,
            progress,
        });
        answer
    }

    /// Makes the next call of a roll. From the rename on a crash may leave the new manifest, also where the rename failed; behind
    /// the last call the new manifest is in use. After a fault the roll makes no further call.
    pub fn roll_step<D: Disk>(
        &mut self,
        alloc: Global,
        disk: &mut D,
        roll: &mut Roll,
    ) -> Result<Rolled, DiskError>
        requires { IsSome roll.old.next }
        ensures call { IfSome roll.old.next (λ call. Calls (D.seen disk.old) (change_of roll.old call) (outcome result) (D.seen disk.new)) }
        ensures step { RollSteps roll.old.next result roll.old roll.new self.old self.new }
    {
        let Some(call) = roll.next() else {
            unreachable!()
        };
        if self.doubts.reserve(1).is_err() {
            return Err(DiskError::OutOfMemory);
        }
        match roll.make(alloc, disk, call) {
            Ok(()) => {
                roll.go_on(call.next());
                match call {
                    RollCall::Rename => self.doubts.push_reserved(roll.doubt()),
                    RollCall::SyncDirectory => {
                        self.leave_one(roll.doubt());
                        self.in_use = Some(roll.in_use());
                        return Ok(Rolled::Done);
                    }
                    _ => {}
                }
                Ok(Rolled::Moved(call.word()))
            }
            Err(DiskError::Fault(fault)) => {
                roll.go_on(None);
                if let RollCall::Rename = call {
                    self.doubts.push_reserved(roll.doubt());
                }
                Err(DiskError::Fault(fault))
            }
            Err(DiskError::OutOfMemory) => Err(DiskError::OutOfMemory),
        }
    }

    // A crash leaves that alone.
    fn leave_one(&mut self, doubt: Doubt)
        ensures { self.new ≡ settled doubt self.old }
    {
        self.doubts.clear();
        self.doubts.push_reserved(doubt);
    }
}
