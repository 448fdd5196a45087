// How far a flush has come.
ghost use Rattle.std.specs.Prelude.{◌≡◌, ◌+◌, ◌≤◌, ◌<◌, ◌^◌, true, ◌∷◌, [], Some, IfOk, length, get_or};
ghost use Rattle.keel_base.specs.declared.failure.Call.TheVariants as call;
ghost use Rattle.keel_base.specs.declared.file_name.FileName.TheVariants as name;
ghost use Rattle.keel_disk.specs.declared.change.Change.TheVariants as change;
ghost use Rattle.keel_disk.specs.Seen.{Calls};
ghost use Rattle.keel_draft.specs.Drafts.{pieces_in};
ghost use Rattle.keel_edit.specs.Spelling.{spelling};
ghost use Rattle.keel_flush.specs.Courses.{IsStage, Leaves, StageBehind, act_in, acts_within, job_in, later_at, outcome};
ghost use Rattle.keel_flush.specs.Jobs.{Takes};
ghost use Rattle.keel_flush.specs.Plans.{AppendEdit, MakeTable, change_of, draws, edit_of, number_of};
ghost use Rattle.keel_manifest.specs.State.{IsFirmAt, ManifestState, append_failed, appended, by_answer};

use crate::stage::Stage;
use keel_base::{Bytes, Call, FileName, OutOfMemory};
use keel_disk::{Disk, DiskError};
use keel_draft::TableDraft;
use keel_edit::{AddedList, Edit, RemovedList, encode};
use keel_manifest::{Manifest, NextFile};
use std::alloc::Global;

/// The parts of a flush: the log of the next segment, the table that is to be made, and how far it has come.
#[derive(Debug, Drop)]
pub struct Course {
    pub min_log: u64,
    pub draft: TableDraft,
    /// How many calls were made.
    pub made: u64,
    /// The number of the table, once it was handed to `create`.
    pub table: Option<u64>,
    pub stage: Stage,
    pub over: bool,
}

// A call that was made, where the device said so.
fn made(answer: Result<(), DiskError>, call: Call) -> Result<Call, DiskError>
    ensures done { outcome result ≡ answer }
    ensures call { IfOk result (λ made. made ≡ call) }
{
    match answer {
        Ok(()) => Ok(call),
        Err(error) => Err(error),
    }
}

impl Course {
    /// Makes the call of the stage. The table is noted also where its `create` failed.
    pub(crate) fn call<D: Disk>(
        &mut self,
        alloc: Global,
        disk: &mut D,
        manifest: &mut Manifest,
        next: &mut NextFile,
    ) -> Result<Call, DiskError>
        requires stage { IsStage self.old.stage self.old.draft }
        requires drawn { draws (act_in self.old) ≡ true → (1 ≤ next.old.number) × (next.old.number < 2 ^ 56) }
        requires takes { Takes (act_in self.old ∷ later_at self.old.stage self.old.draft) manifest.old }
        ensures calls { Calls (D.seen disk.old) (change_of (job_in self.old) next.old.number manifest.old (act_in self.old)) (outcome result) (D.seen disk.new) }
        ensures leaves { Leaves (act_in self.old) result
            (record { course = self.old; next = next.old.number; manifest = manifest.old })
            (record { course = self.new; next = next.new.number; manifest = manifest.new }) }
    {
        match self.stage {
            Stage::MakeTable => self.make_table(alloc, disk, next),
            Stage::AddPiece { piece } => self.add_piece(alloc, disk, piece),
            Stage::SyncTable => self.sync_table(alloc, disk),
            Stage::SyncName => made(disk.sync_dir(alloc), Call::SyncDir),
            Stage::AppendEdit => self.append_edit(alloc, disk, manifest, next.number()),
            Stage::SyncManifest => made(manifest.edit_sync(alloc, disk), Call::Sync),
        }
    }

    fn make_table<D: Disk>(
        &mut self,
        alloc: Global,
        disk: &mut D,
        next: &mut NextFile,
    ) -> Result<Call, DiskError>
        requires least { 1 ≤ next.old.number }
        requires most { next.old.number < 2 ^ 56 }
        ensures calls { Calls (D.seen disk.old) (change.Create (name.Table next.old.number)) (outcome result) (D.seen disk.new) }
        ensures leaves { (m : ManifestState) → Leaves MakeTable result
            (record { course = self.old; next = next.old.number; manifest = m })
            (record { course = self.new; next = next.new.number; manifest = m }) }
    {
        let answer = disk.create(alloc, FileName::Table(next.number()));
        if let Err(DiskError::OutOfMemory) = answer {
            return Err(DiskError::OutOfMemory);
        }
        self.table = Some(next.draw());
        made(answer, Call::Create)
    }

    // The name of the table.
    fn name(&self) -> FileName
        ensures { result ≡ name.Table (number_of (job_in self.now)) }
    {
        FileName::Table(self.table.unwrap_or(0))
    }

    fn add_piece<D: Disk>(
        &self,
        alloc: Global,
        disk: &mut D,
        piece: usize,
    ) -> Result<Call, DiskError>
        requires { piece < length (pieces_in self.now.draft) }
        ensures calls { Calls (D.seen disk.old) (change.Append (name.Table (number_of (job_in self.now))) (get_or (pieces_in self.now.draft) piece [])) (outcome result) (D.seen disk.new) }
        ensures call { IfOk result (λ made. made ≡ call.Append) }
    {
        made(
            disk.append(alloc, self.name(), self.draft.piece(piece)),
            Call::Append,
        )
    }

    fn sync_table<D: Disk>(&self, alloc: Global, disk: &mut D) -> Result<Call, DiskError>
        ensures calls { Calls (D.seen disk.old) (change.Sync (name.Table (number_of (job_in self.now)))) (outcome result) (D.seen disk.new) }
        ensures call { IfOk result (λ made. made ≡ call.Sync) }
    {
        made(disk.sync(alloc, self.name()), Call::Sync)
    }

    // The edit that brings the table, as bytes.
    fn edit(&self, alloc: Global, next_file: u64) -> Result<Bytes, OutOfMemory>
        ensures { IfOk result (λ bytes. bytes ≡ spelling (edit_of (job_in self.now) next_file)) }
    {
        let mut added = AddedList::new(alloc);
        added.push(self.draft.added(alloc, self.table.unwrap_or(0))?)?;
        let edit = Edit {
            min_log: self.min_log,
            next_file,
            last_seq: self.draft.last(),
            removed: RemovedList::new(alloc),
            added,
        };
        encode(alloc, &edit)
    }

    fn append_edit<D: Disk>(
        &self,
        alloc: Global,
        disk: &mut D,
        manifest: &mut Manifest,
        next_file: u64,
    ) -> Result<Call, DiskError>
        requires { IsFirmAt manifest.old }
        ensures calls { Calls (D.seen disk.old) (change_of (job_in self.now) next_file manifest.old AppendEdit) (outcome result) (D.seen disk.new) }
        ensures call { IfOk result (λ made. made ≡ call.Append) }
        ensures after { manifest.new ≡ by_answer (outcome result) (appended (spelling (edit_of (job_in self.now) next_file)) manifest.old) (append_failed manifest.old) manifest.old }
    {
        let edit = self.edit(alloc, next_file)?;
        made(
            manifest.edit_append(alloc, disk, edit.as_slice()),
            Call::Append,
        )
    }

    /// The stage behind this one, where a call is left.
    pub(crate) fn behind(&self) -> Option<Stage>
        requires { IsStage self.now.stage self.now.draft }
        ensures { StageBehind (later_at self.now.stage self.now.draft) self.now.draft result }
    {
        match self.stage {
            Stage::MakeTable => Some(Stage::AddPiece { piece: 0 }),
            Stage::AddPiece { piece } => Some(self.behind_piece(piece)),
            Stage::SyncTable => Some(Stage::SyncName),
            Stage::SyncName => Some(Stage::AppendEdit),
            Stage::AppendEdit => Some(Stage::SyncManifest),
            Stage::SyncManifest => None,
        }
    }

    fn behind_piece(&self, piece: usize) -> Stage
        requires { piece < length (pieces_in self.now.draft) }
        ensures { StageBehind (acts_within (piece + 1) self.now.draft) self.now.draft (Some result) }
    {
        let pieces = self.draft.pieces();
        if piece + 1 < pieces {
            return Stage::AddPiece { piece: piece + 1 };
        }
        Stage::SyncTable
    }
}
