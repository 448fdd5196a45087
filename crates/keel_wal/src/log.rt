// The log in use, and the way to the next one.
//
//   Going -> sync -> Synced -> create -> NextMade -> sync_dir -> the next log, Going
//
// The log is firm before there is another, so that a crash never leaves a batch of the next log without those before it.
ghost use Rattle.std.specs.Prelude.{◌≡◌, IfSome, IsSome};
ghost use Rattle.keel_base.specs.Name.{IsFileNumber};
ghost use Rattle.keel_disk.specs.Seen.{Calls};
ghost use Rattle.keel_disk.specs.declared.change.Change.TheVariants as change;

use keel_base::{Call, FileName};
use keel_disk::{Disk, DiskError};
use std::alloc::Global;

/// How far a log has come.
#[derive(Clone, Copy, Debug, PartialEq, Eq)]
pub enum LogProgress {
    /// It takes groups.
    Going,
    /// A rotation has synced it.
    Synced,
    /// A rotation has made the log `next`, whose name isn't firm yet.
    NextMade { next: u64 },
    /// A call on it failed, or one of its rotation. Nothing more is written to it, and another log must be made.
    Failed,
}

/// What a step of a rotation did.
#[derive(Clone, Copy, Debug, PartialEq, Eq)]
pub enum Rotated {
    /// It made this call, and has others before it.
    Moved(Call),
    /// It made its last call, and the next log is in use.
    Done,
}

/// A log that takes groups of writes.
#[derive(Clone, Copy, Debug, PartialEq, Eq)]
pub struct Log {
    number: u64,
    length: u64,
    progress: LogProgress,
}

impl Log {
    ghost use Rattle.keel_wal.specs.Logs.{IsGoing, HasNotFailed, MayRotate, appended, by_answer, empty, failed, name_of, outcome, rotation_change, RotatesTo, append_failed};

    /// The log in an empty file of that number.
    pub fn new(number: u64) -> Log
        ensures { result ≡ empty number }
    {
        Log {
            number,
            length: 0,
            progress: LogProgress::Going,
        }
    }

    /// The number of its file.
    pub fn number(&self) -> u64
        ensures { result ≡ self.now.number }
    {
        self.number
    }

    /// The bytes that were handed to it. Behind a failed append its file may have fewer.
    pub fn length(&self) -> u64
        ensures { result ≡ self.now.length }
    {
        self.length
    }

    /// How far it has come.
    pub fn progress(&self) -> LogProgress
        ensures { result ≡ self.now.progress }
    {
        self.progress
    }

    /// Appends the records of a group in one call. After a fault a crash may show the first ones of them, and nothing more
    /// may be written to this log. `OutOfMemory` comes also where the length would pass 2^64 - 1 bytes; no call is made then.
    pub fn append_group<D: Disk>(
        &mut self,
        alloc: Global,
        disk: &mut D,
        records: &[u8],
    ) -> Result<(), DiskError>
        requires { IsGoing self.old.progress }
        ensures call { Calls (D.seen disk.old) (change.Append (name_of self.old) records.now) result (D.seen disk.new) }
        ensures after { self.new ≡ by_answer result (appended records.now self.old) (append_failed records.now self.old) self.old }
    {
        let Some(length) = self.length.checked_add(records.len() as u64) else {
            return Err(DiskError::OutOfMemory);
        };
        let answer = disk.append(alloc, FileName::Log(self.number), records);
        let progress = match answer {
            Ok(()) => LogProgress::Going,
            Err(DiskError::Fault(_)) => LogProgress::Failed,
            Err(DiskError::OutOfMemory) => return answer,
        };
        self.length = length;
        self.progress = progress;
        answer
    }

    /// Makes firm what was appended. After a fault it may or may not be, and nothing more may be written to this log.
    pub fn sync<D: Disk>(&mut self, alloc: Global, disk: &mut D) -> Result<(), DiskError>
        requires { HasNotFailed self.old.progress }
        ensures call { Calls (D.seen disk.old) (change.Sync (name_of self.old)) result (D.seen disk.new) }
        ensures after { self.new ≡ by_answer result self.old (failed self.old) self.old }
    {
        let answer = disk.sync(alloc, FileName::Log(self.number));
        if let Err(DiskError::Fault(_)) = answer {
            self.progress = LogProgress::Failed;
        }
        answer
    }

    /// Makes the next call of a rotation to the log `next`: the `sync` of this log, the `create` of the other, and the
    /// `sync_dir` that makes its name firm. Behind the last one this is the log `next`. After a fault the rotation makes no
    /// further call. All calls from the `create` on have the same `next`.
    pub fn rotate_step<D: Disk>(
        &mut self,
        alloc: Global,
        disk: &mut D,
        next: u64,
    ) -> Result<Rotated, DiskError>
        requires number { IsFileNumber next }
        requires may { MayRotate next self.old.progress }
        ensures call { IfSome (rotation_change next self.old) (λ asked. Calls (D.seen disk.old) asked (outcome result) (D.seen disk.new)) }
        ensures step { RotatesTo next self.old result self.new }
    {
        let answer = self.make_next(alloc, disk, next);
        match answer {
            Ok(()) => Ok(self.go_on(next)),
            Err(DiskError::Fault(fault)) => {
                self.progress = LogProgress::Failed;
                Err(DiskError::Fault(fault))
            }
            Err(DiskError::OutOfMemory) => Err(DiskError::OutOfMemory),
        }
    }

    // Makes that call.
    fn make_next<D: Disk>(&self, alloc: Global, disk: &mut D, next: u64) -> Result<(), DiskError>
        requires number { IsFileNumber next }
        requires may { MayRotate next self.now.progress }
        ensures { IfSome (rotation_change next self.now) (λ asked. Calls (D.seen disk.old) asked result (D.seen disk.new)) }
    {
        match self.progress {
            LogProgress::Going => disk.sync(alloc, FileName::Log(self.number)),
            LogProgress::Synced => disk.create(alloc, FileName::Log(next)),
            LogProgress::NextMade { .. } => disk.sync_dir(alloc),
            LogProgress::Failed => unreachable!(),
        }
    }

    // The call is made.
    fn go_on(&mut self, next: u64) -> Rotated
        requires { MayRotate next self.old.progress }
        ensures { RotatesTo next self.old (Ok result) self.new }
    {
        match self.progress {
            LogProgress::Going => {
                self.progress = LogProgress::Synced;
                Rotated::Moved(Call::Sync)
            }
            LogProgress::Synced => {
                self.progress = LogProgress::NextMade { next };
                Rotated::Moved(Call::Create)
            }
            LogProgress::NextMade { .. } => {
                *self = Log::new(next);
                Rotated::Done
            }
            LogProgress::Failed => unreachable!(),
        }
    }
}
