// How far a job has come.
ghost use Rattle.std.specs.Prelude.{◌≡◌, ℕ, ◌+◌, ◌≤◌, ◌<◌, ◌^◌, false, true, ◌∷◌, ◌++◌, [], Some, Ok, IfOk, length, drop, get_or, option_map};
ghost use Rattle.keel_base.specs.declared.failure.Call.TheVariants as call;
ghost use Rattle.keel_base.specs.declared.file_name.FileName.TheVariants as name;
ghost use Rattle.keel_disk.specs.declared.change.Change.TheVariants as change;
ghost use Rattle.keel_disk.specs.Seen.{Calls};
ghost use Rattle.keel_resume.specs.Courses.{Leaves, IsStage, RollAt, RollBehind, RollReady, StageBehind, act_in, acts_before, acts_within, is_refused, job_in, later_at, outcome, pieces_of, roll_next};
ghost use Rattle.keel_resume.specs.declared.stage.Stage.TheVariants as stage;
ghost use Rattle.keel_resume.specs.Plans.{MakeTable, MakeLog, Rolls, change_of, draws, edit_of, handed, latest};
ghost use Rattle.keel_resume.specs.Jobs.{IsBehindManifest, tables_of};
ghost use Rattle.keel_manifest.specs.declared.roll.RollCall.TheVariants as roll;
ghost use Rattle.keel_manifest.specs.Rolls.{answer_of, begun, word_of};
ghost use Rattle.keel_manifest.specs.Rolls as rolls;
ghost use Rattle.keel_manifest.specs.State.{ManifestState};
ghost use Rattle.keel_manifest.specs.declared.roll.RollCall.{RollCall as ARollCall};
ghost use Rattle.keel_edit.specs.Spelling.{spelling};

use crate::stage::Stage;
use crate::tables::with_tables;
use keel_base::{Call, FileName, OutOfMemory, Sequence};
use keel_disk::{Disk, DiskError};
use keel_draft::TableDraft;
use keel_edit::{AddedList, Edit, RemovedList, encode};
use keel_manifest::{Manifest, NextFile, Roll, RollCall, Rolled};
use std::alloc::Global;

/// The parts of a job: the tables that the version has, those that are to be made, and what was handed to `create`.
#[derive(Debug, Drop)]
pub struct Course {
    pub live: AddedList,
    pub last_seq: u64,
    pub drafts: Sequence<TableDraft>,
    /// How many calls were made.
    pub made: u64,
    /// The numbers of the tables that were handed to `create`.
    pub numbers: Sequence<u64>,
    pub log: Option<u64>,
    pub manifest: Option<u64>,
    pub temporary: Option<u64>,
    pub stage: Stage,
    pub roll: Option<Roll>,
    /// The tables of the new version, from the first call of the roll on.
    pub tables: AddedList,
    pub over: bool,
}

// The numbers with one more behind them.
fn with_number(alloc: Global, numbers: &[u64], number: u64) -> Result<Sequence<u64>, OutOfMemory>
    ensures { IfOk result (λ longer. longer ≡ numbers.now ++ number ∷ []) }
{
    let mut longer = Vec::from_slice(alloc, numbers)?;
    longer.push(number)?;
    Ok(Sequence::from_vec(longer))
}

fn latest_of(numbers: &[u64]) -> u64
    ensures { result ≡ latest numbers.now }
{
    match numbers.last() {
        Some(number) => *number,
        None => 0,
    }
}

// A call that was made, where the device said so.
fn made(answer: Result<(), DiskError>, call: Call) -> Result<Call, DiskError>
    ensures done { outcome result ≡ answer }
    ensures call { IfOk result (λ made. made ≡ call) }
{
    match answer {
        Ok(()) => Ok(call),
        Err(error) => Err(error),
    }
}

impl Course {
    /// Makes the call of the stage. What was handed to `create` is noted also behind a fault.
    pub(crate) fn call<D: Disk>(
        &mut self,
        alloc: Global,
        disk: &mut D,
        manifest: &mut Manifest,
        next: &mut NextFile,
    ) -> Result<Call, DiskError>
        requires stage { IsStage self.old.stage self.old.drafts }
        requires roll { RollAt (act_in self.old) self.old }
        requires drawn { draws (act_in self.old) ≡ true → (1 ≤ next.old.number) × (next.old.number < 2 ^ 56) }
        requires behind { IsBehindManifest (job_in self.old) next.old.number }
        ensures calls { Calls (D.seen disk.old) (change_of (job_in self.old) next.old.number (act_in self.old)) (outcome result) (D.seen disk.new) }
        ensures leaves { Leaves (act_in self.old) result
            (record { course = self.old; next = next.old.number; manifest = manifest.old })
            (record { course = self.new; next = next.new.number; manifest = manifest.new }) }
    {
        match self.stage {
            Stage::MakeTable { .. } => self.make_table(alloc, disk, next),
            Stage::AddPiece { table, piece } => self.add_piece(alloc, disk, table, piece),
            Stage::SyncTable { .. } => self.sync_table(alloc, disk),
            Stage::MakeLog => self.make_log(alloc, disk, next),
            Stage::SyncLogName => made(disk.sync_dir(alloc), Call::SyncDir),
            Stage::Roll(RollCall::MakeManifest) => self.begin_roll(alloc, disk, manifest, next),
            Stage::Roll(call) => self.roll_on(alloc, disk, manifest, call),
        }
    }

    fn make_table<D: Disk>(
        &mut self,
        alloc: Global,
        disk: &mut D,
        next: &mut NextFile,
    ) -> Result<Call, DiskError>
        requires least { 1 ≤ next.old.number }
        requires most { next.old.number < 2 ^ 56 }
        ensures calls { Calls (D.seen disk.old) (change_of (job_in self.old) next.old.number MakeTable) (outcome result) (D.seen disk.new) }
        ensures leaves { (m : ManifestState) → Leaves MakeTable result
            (record { course = self.old; next = next.old.number; manifest = m })
            (record { course = self.new; next = next.new.number; manifest = m }) }
    {
        let number = next.number();
        let numbers = with_number(alloc, self.numbers.as_slice(), number)?;
        let answer = disk.create(alloc, FileName::Table(number));
        if let Err(DiskError::OutOfMemory) = answer {
            return Err(DiskError::OutOfMemory);
        }
        next.draw();
        self.numbers = numbers;
        made(answer, Call::Create)
    }

    fn add_piece<D: Disk>(
        &self,
        alloc: Global,
        disk: &mut D,
        table: usize,
        piece: usize,
    ) -> Result<Call, DiskError>
        requires table { table < length self.now.drafts }
        requires piece { piece < length (pieces_of (drop table self.now.drafts)) }
        ensures calls { Calls (D.seen disk.old) (change.Append (name.Table (latest self.now.numbers)) (get_or (pieces_of (drop table self.now.drafts)) piece [])) (outcome result) (D.seen disk.new) }
        ensures call { IfOk result (λ made. made ≡ call.Append) }
    {
        let draft = &self.drafts.as_slice()[table];
        let name = FileName::Table(latest_of(self.numbers.as_slice()));
        made(disk.append(alloc, name, draft.piece(piece)), Call::Append)
    }

    fn sync_table<D: Disk>(&self, alloc: Global, disk: &mut D) -> Result<Call, DiskError>
        ensures calls { Calls (D.seen disk.old) (change.Sync (name.Table (latest self.now.numbers))) (outcome result) (D.seen disk.new) }
        ensures call { IfOk result (λ made. made ≡ call.Sync) }
    {
        let name = FileName::Table(latest_of(self.numbers.as_slice()));
        made(disk.sync(alloc, name), Call::Sync)
    }

    fn make_log<D: Disk>(
        &mut self,
        alloc: Global,
        disk: &mut D,
        next: &mut NextFile,
    ) -> Result<Call, DiskError>
        requires least { 1 ≤ next.old.number }
        requires most { next.old.number < 2 ^ 56 }
        ensures calls { Calls (D.seen disk.old) (change_of (job_in self.old) next.old.number MakeLog) (outcome result) (D.seen disk.new) }
        ensures leaves { (m : ManifestState) → Leaves MakeLog result
            (record { course = self.old; next = next.old.number; manifest = m })
            (record { course = self.new; next = next.new.number; manifest = m }) }
    {
        let answer = disk.create(alloc, FileName::Log(next.number()));
        if let Err(DiskError::OutOfMemory) = answer {
            return Err(DiskError::OutOfMemory);
        }
        self.log = Some(next.draw());
        made(answer, Call::Create)
    }

    // The roll to the manifest of that number, and the tables that its edit brings.
    fn roll_to(&self, alloc: Global, number: u64) -> Result<(Roll, AddedList), OutOfMemory>
        requires least { 1 ≤ number }
        requires most { number < 2 ^ 56 }
        ensures roll { IfOk result (λ made. made.0 ≡ begun number (spelling (edit_of (job_in self.now) (number + 1)))) }
        ensures tables { IfOk result (λ made. made.1 ≡ tables_of (job_in self.now)) }
    {
        let added = with_tables(
            alloc,
            self.live.as_slice(),
            self.numbers.as_slice(),
            self.drafts.as_slice(),
        )?;
        let edit = Edit {
            min_log: self.log.unwrap_or(0),
            next_file: number + 1,
            last_seq: self.last_seq,
            removed: RemovedList::new(alloc),
            added,
        };
        let spelled = encode(alloc, &edit)?;
        let roll = Roll::new(alloc, number, spelled.as_slice())?;
        Ok((roll, edit.added))
    }

    // The roll draws no other number, so the edit can tell already which one is drawn behind it.
    fn begin_roll<D: Disk>(
        &mut self,
        alloc: Global,
        disk: &mut D,
        manifest: &mut Manifest,
        next: &mut NextFile,
    ) -> Result<Call, DiskError>
        requires least { 1 ≤ next.old.number }
        requires most { next.old.number < 2 ^ 56 }
        ensures calls { Calls (D.seen disk.old) (change_of (job_in self.old) next.old.number (Rolls roll.MakeManifest)) (outcome result) (D.seen disk.new) }
        ensures leaves { Leaves (Rolls roll.MakeManifest) result
            (record { course = self.old; next = next.old.number; manifest = manifest.old })
            (record { course = self.new; next = next.new.number; manifest = manifest.new }) }
    {
        let (mut roll, tables) = self.roll_to(alloc, next.number())?;
        let answer = manifest.roll_step(alloc, disk, &mut roll);
        if is_refused(&answer) {
            return Err(DiskError::OutOfMemory);
        }
        self.manifest = Some(next.draw());
        self.roll = Some(roll);
        self.tables = tables;
        rolled(answer)
    }

    // A later call of the roll.
    fn roll_on<D: Disk>(
        &mut self,
        alloc: Global,
        disk: &mut D,
        manifest: &mut Manifest,
        call: RollCall,
    ) -> Result<Call, DiskError>
        requires later { draws (Rolls call) ≡ false }
        requires roll { RollAt (Rolls call) self.old }
        ensures calls { (next : ℕ) → IsBehindManifest (job_in self.old) next → Calls (D.seen disk.old) (change_of (job_in self.old) next (Rolls call)) (outcome result) (D.seen disk.new) }
        ensures leaves { (next : ℕ) → IsBehindManifest (job_in self.old) next → Leaves (Rolls call) result
            (record { course = self.old; next = next; manifest = manifest.old })
            (record { course = self.new; next = next; manifest = manifest.new }) }
    {
        let Some(roll) = &mut self.roll else {
            unreachable!()
        };
        let answer = manifest.roll_step(alloc, disk, roll);
        if is_refused(&answer) {
            return Err(DiskError::OutOfMemory);
        }
        self.temporary = self.temporary_behind(call);
        rolled(answer)
    }

    // The temporary file that was handed to `create`, with this call.
    fn temporary_behind(&self, call: RollCall) -> Option<u64>
        ensures { (next : ℕ) → result ≡ (handed next (Rolls call) (job_in self.now).progress).temporary }
    {
        match call {
            RollCall::MakeTemporary => self.manifest,
            RollCall::MakeManifest
            | RollCall::AppendEdit
            | RollCall::SyncManifest
            | RollCall::AppendName
            | RollCall::SyncTemporary
            | RollCall::Rename
            | RollCall::SyncDirectory => self.temporary,
        }
    }

    /// The stage behind this one, where a call is left.
    pub(crate) fn behind(&self) -> Option<Stage>
        requires stage { IsStage self.now.stage self.now.drafts }
        requires roll { RollBehind (act_in self.now) self.now }
        ensures stage { StageBehind (later_at self.now.stage self.now.drafts) self.now.drafts result }
        ensures roll { RollReady result self.now }
    {
        match self.stage {
            Stage::MakeTable { table } => Some(Stage::AddPiece { table, piece: 0 }),
            Stage::AddPiece { table, piece } => Some(self.behind_piece(table, piece)),
            Stage::SyncTable { table } => Some(self.behind_table(table)),
            Stage::MakeLog => Some(Stage::SyncLogName),
            Stage::SyncLogName => Some(Stage::Roll(RollCall::MakeManifest)),
            Stage::Roll(_) => self.behind_roll(),
        }
    }

    fn behind_roll(&self) -> Option<Stage>
        ensures { result ≡ option_map stage.Roll (roll_next self.now.roll) }
    {
        match &self.roll {
            None => None,
            Some(roll) => match roll.next() {
                None => None,
                Some(call) => Some(Stage::Roll(call)),
            },
        }
    }

    fn behind_piece(&self, table: usize, piece: usize) -> Stage
        requires table { table < length self.now.drafts }
        requires piece { piece < length (pieces_of (drop table self.now.drafts)) }
        ensures stage { StageBehind (acts_within (piece + 1) (drop table self.now.drafts)) self.now.drafts (Some result) }
        ensures roll { RollReady (Some result) self.now }
    {
        let draft = &self.drafts.as_slice()[table];
        let pieces = draft.pieces();
        if piece + 1 < pieces {
            return Stage::AddPiece {
                table,
                piece: piece + 1,
            };
        }
        Stage::SyncTable { table }
    }

    fn behind_table(&self, table: usize) -> Stage
        requires { table < length self.now.drafts }
        ensures stage { StageBehind (acts_before (drop (table + 1) self.now.drafts)) self.now.drafts (Some result) }
        ensures roll { RollReady (Some result) self.now }
    {
        let tables = self.drafts.as_slice().len();
        if table + 1 < tables {
            return Stage::MakeTable { table: table + 1 };
        }
        Stage::MakeLog
    }
}

// Whether memory was wanting for a roll's step, so that no call was made.
fn is_refused(answer: &Result<Rolled, DiskError>) -> bool
    ensures { result ≡ is_refused answer.now }
{
    match answer {
        Ok(_) => false,
        Err(DiskError::Fault(_)) => false,
        Err(DiskError::OutOfMemory) => true,
    }
}

// The call of a roll's step.
fn rolled(answer: Result<Rolled, DiskError>) -> Result<Call, DiskError>
    ensures done { outcome result ≡ rolls.outcome answer }
    ensures call { (asked : ARollCall) → answer ≡ Ok (answer_of asked) → IfOk result (λ made. made ≡ word_of asked) }
{
    match answer {
        Ok(Rolled::Moved(call)) => Ok(call),
        Ok(Rolled::Done) => Ok(Call::SyncDir),
        Err(error) => Err(error),
    }
}
