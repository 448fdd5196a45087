// The device over a folder. It tells no state.
ghost use Rattle.std.specs.Prelude.{◌≡◌, ◌≢◌, Option, None, length, IfOk, OnErr, false};
ghost use Rattle.keel_base.specs.declared.failure.Fault.TheVariants.{SpaceLimit};
ghost use Rattle.keel_base.specs.Name.{IsName};
ghost use Rattle.keel_disk.specs.Counts.{FaultCounted, counted, disk_fault, read_fault};
ghost use Rattle.keel_disk.specs.declared.error.DiskError.TheVariants as error;
ghost use Rattle.keel_disk.specs.Listings.{IsListing};
ghost use Rattle.keel_disk.specs.Rule.{IsAllowed};
ghost use Rattle.keel_disk.specs.Seen.{Calls, IsQuiet, IsArranged, AreAtMost};
ghost use Rattle.keel_disk.specs.declared.change.Change.TheVariants as Change;
ghost use Rattle.keel_disk.specs.declared.rule.Arranged.TheVariants as Arranged;
ghost use Rattle.keel_disk.specs.Told.{TellsListing, TellsRoom};
ghost use Rattle.keel_dirdisk.specs.Answers.{IsPlainOrFull};
ghost use Rattle.keel_dirdisk.specs.Shown.{budget_of, changes_of, faults_of, last_fault_of, seen_of};
ghost use Rattle.keel_dirdisk.specs.Spending.{uncounted, counting, IsCount, Spends, Frees, Leaves};

use crate::budget::Budget;
use crate::folder::Folder;
use crate::listing::total;
use crate::stop::{Stop, answer_of};
use crate::tally::Tally;
use keel_base::{Bytes, Fault, FileName, Listing, OutOfMemory};
use keel_disk::{Device, Disk, DiskError, Pick, ReadError, Rule};
use keel_name::listed;
use std::alloc::Global;
use std::fs::File;
use std::rt::Files;

/// A folder of the host as a device. What the host does isn't told, and no failure or crash can be arranged. The first
/// call locks the folder, and the device keeps it to its end; while another has it, each call fails as `Plain` and
/// changes nothing.
#[derive(Drop)]
pub struct DirDisk<'a, R: Files<File = File> + AllocGlobal> {
    folder: Folder<'a, R>,
    budget: Budget,
    tally: Tally,
}

impl<'a, R: Files<File = File> + AllocGlobal> DirDisk<'a, R> {
    /// A device on the folder at this path, as it is given, for so many bytes. Nothing is opened yet.
    pub fn new(rt: &'a R, path: String, budget: u64) -> Self
        ensures budget { budget_of result ≡ record { limit = budget; counted = None } }
        ensures changes { changes_of result ≡ 0 }
        ensures faults { faults_of result ≡ 0 }
        ensures last_fault { last_fault_of result ≡ None }
    {
        DirDisk {
            folder: Folder::new(rt, path),
            budget: Budget {
                limit: budget,
                counted: None,
            },
            tally: Tally::new(),
        }
    }

    // How many bytes the store's files have: what the folder has where that isn't known.
    fn count(&mut self, alloc: Global) -> Result<u64, Stop>
        ensures counted { IfOk result (λ had. IsCount (budget_of self.old) had × (budget_of self.new ≡ counting had (budget_of self.old))) }
        ensures err { OnErr result (budget_of self.new ≡ budget_of self.old) }
        ensures held { self.new.folder.held ≡ self.old.folder.held }
        ensures tally { self.new.tally ≡ self.old.tally }
    {
        if let Some(had) = self.budget.counted {
            return Ok(had);
        }
        let files = self.folder.files(alloc)?;
        let had = total(&files);
        self.budget.counted = Some(had);
        Ok(had)
    }

    // Adds bytes at the end of a file, where the budget isn't passed.
    fn grow(&mut self, alloc: Global, name: FileName, bytes: &[u8]) -> Result<(), DiskError>
        ensures budget { Spends (length bytes.now) (budget_of self.old) result (budget_of self.new) }
        ensures tally { self.new.tally ≡ self.old.tally }
    {
        let place = self.folder.growing(alloc, name)?;
        let had = self.count(alloc)?;
        let added = bytes.len() as u64;
        if self.budget.limit < had || self.budget.limit - had < added {
            return Err(DiskError::Fault(Fault::NoSpace));
        }
        self.budget.counted = None;
        self.folder.append(place, bytes)?;
        self.budget.counted = Some(had + added);
        Ok(())
    }

    // The answer of a change by which the files have so many bytes fewer.
    fn freed(&mut self, outcome: Result<u64, Stop>) -> Result<(), DiskError>
        ensures budget { Frees (budget_of self.old) result (budget_of self.new) }
        ensures plain { IsPlainOrFull (disk_fault result) }
        ensures count { changes_of self.new ≡ counted (changes_of self.old) result }
        ensures cause { FaultCounted (faults_of self.old) (faults_of self.new) (last_fault_of self.new) (disk_fault result) }
    {
        match outcome {
            Ok(freed) => {
                self.budget = self.budget.freeing(freed);
                self.tally.change(Ok(()))
            }
            Err(Stop::OutOfMemory) => Err(DiskError::OutOfMemory),
            Err(Stop::Host) => self.lost(Fault::Plain),
            Err(Stop::Full) => self.lost(Fault::NoSpace),
        }
    }

    // The answer of a change that failed: what it left isn't known.
    fn lost(&mut self, fault: Fault) -> Result<(), DiskError>
        requires { fault ≢ SpaceLimit }
        ensures answer { result ≡ Err (error.Fault fault) }
        ensures budget { budget_of self.new ≡ uncounted (budget_of self.old) }
        ensures count { changes_of self.new ≡ counted (changes_of self.old) result }
        ensures cause { FaultCounted (faults_of self.old) (faults_of self.new) (last_fault_of self.new) (disk_fault result) }
    {
        self.budget.counted = None;
        self.tally.change(Err(DiskError::Fault(fault)))
    }

    // The store's files in order.
    fn entries(&mut self, alloc: Global) -> Result<Listing, Stop>
        ensures listing { IfOk result IsListing }
        ensures budget { self.new.budget ≡ self.old.budget }
        ensures tally { self.new.tally ≡ self.old.tally }
    {
        let files = self.folder.files(alloc)?;
        Ok(listed(alloc, &files)?)
    }

    // What the budget leaves, and not what the host has.
    fn room(&mut self, alloc: Global) -> Result<u64, DiskError>
        ensures budget { Leaves (budget_of self.old) result (budget_of self.new) }
        ensures plain { IsPlainOrFull (disk_fault result) }
        ensures tally { self.new.tally ≡ self.old.tally }
    {
        self.folder.enter()?;
        let had = self.count(alloc)?;
        Ok(self.budget.limit.saturating_sub(had))
    }
}

impl<'a, R: Files<File = File> + AllocGlobal> Disk for DirDisk<'a, R> {
    ghost seen = { seen_of };

    fn create(&mut self, alloc: Global, name: FileName) -> Result<(), DiskError>
        requires { IsName name }
        ensures budget { Frees (budget_of self.old) result (budget_of self.new) }
        ensures plain { IsPlainOrFull (disk_fault result) }
        ensures calls { Calls (seen_of self.old) (Change.Create name) result (seen_of self.new) }
    {
        let outcome = self.folder.create(alloc, name);
        self.freed(outcome)
    }

    fn append(&mut self, alloc: Global, name: FileName, bytes: &[u8]) -> Result<(), DiskError>
        ensures budget { Spends (length bytes.now) (budget_of self.old) result (budget_of self.new) }
        ensures calls { Calls (seen_of self.old) (Change.Append name bytes.now) result (seen_of self.new) }
    {
        let answer = self.grow(alloc, name, bytes);
        self.tally.change(answer)
    }

    fn sync(&mut self, alloc: Global, name: FileName) -> Result<(), DiskError>
        ensures budget { budget_of self.new ≡ budget_of self.old }
        ensures plain { IsPlainOrFull (disk_fault result) }
        ensures calls { Calls (seen_of self.old) (Change.Sync name) result (seen_of self.new) }
    {
        let outcome = self.folder.sync(alloc, name);
        self.tally.change(answer_of(outcome))
    }

    fn rename(&mut self, alloc: Global, from: FileName, to: FileName) -> Result<(), DiskError>
        requires { IsName to }
        ensures budget { Frees (budget_of self.old) result (budget_of self.new) }
        ensures plain { IsPlainOrFull (disk_fault result) }
        ensures calls { Calls (seen_of self.old) (Change.Rename from to) result (seen_of self.new) }
    {
        let outcome = self.folder.rename(alloc, from, to);
        self.freed(outcome)
    }

    fn remove(&mut self, alloc: Global, name: FileName) -> Result<(), DiskError>
        ensures budget { Frees (budget_of self.old) result (budget_of self.new) }
        ensures plain { IsPlainOrFull (disk_fault result) }
        ensures calls { Calls (seen_of self.old) (Change.Remove name) result (seen_of self.new) }
    {
        let outcome = self.folder.remove(alloc, name);
        self.freed(outcome)
    }

    fn cut(&mut self, alloc: Global, name: FileName, length: u64) -> Result<(), DiskError>
        ensures budget { Frees (budget_of self.old) result (budget_of self.new) }
        ensures plain { IsPlainOrFull (disk_fault result) }
        ensures calls { Calls (seen_of self.old) (Change.Cut name length) result (seen_of self.new) }
    {
        let outcome = self.folder.cut(alloc, name, length);
        self.freed(outcome)
    }

    fn sync_dir(&mut self, _alloc: Global) -> Result<(), DiskError>
        ensures budget { budget_of self.new ≡ budget_of self.old }
        ensures plain { IsPlainOrFull (disk_fault result) }
        ensures calls { Calls (seen_of self.old) Change.SyncDir result (seen_of self.new) }
    {
        let outcome = self.folder.sync_all();
        self.tally.change(answer_of(outcome))
    }

    fn read_at(
        &mut self,
        alloc: Global,
        name: FileName,
        offset: u64,
        length: u32,
    ) -> Result<Bytes, ReadError>
        ensures bound { IfOk result (AreAtMost length) }
        ensures budget { budget_of self.new ≡ budget_of self.old }
        ensures plain { IsPlainOrFull (read_fault result) }
        ensures quiet { IsQuiet (seen_of self.old) (read_fault result) (seen_of self.new) }
    {
        let outcome = self.folder.read_at(alloc, name, offset, length);
        self.tally.read(outcome)
    }

    fn size(&mut self, alloc: Global, name: FileName) -> Result<u64, ReadError>
        ensures budget { budget_of self.new ≡ budget_of self.old }
        ensures plain { IsPlainOrFull (read_fault result) }
        ensures quiet { IsQuiet (seen_of self.old) (read_fault result) (seen_of self.new) }
    {
        let outcome = self.folder.size(alloc, name);
        self.tally.read(outcome)
    }

    fn list(&mut self, alloc: Global) -> Result<Listing, DiskError>
        ensures listing { IfOk result (TellsListing None) }
        ensures order { IfOk result IsListing }
        ensures budget { budget_of self.new ≡ budget_of self.old }
        ensures plain { IsPlainOrFull (disk_fault result) }
        ensures quiet { IsQuiet (seen_of self.old) (disk_fault result) (seen_of self.new) }
    {
        let outcome = self.entries(alloc);
        self.tally.look(answer_of(outcome))
    }

    /// The bytes that the budget leaves. What room the host has isn't asked, since std has no call for it.
    fn free(&mut self, alloc: Global) -> Result<u64, DiskError>
        ensures room { IfOk result (TellsRoom None) }
        ensures budget { Leaves (budget_of self.old) result (budget_of self.new) }
        ensures plain { IsPlainOrFull (disk_fault result) }
        ensures quiet { IsQuiet (seen_of self.old) (disk_fault result) (seen_of self.new) }
    {
        let answer = self.room(alloc);
        self.tally.look(answer)
    }
}

impl<'a, R: Files<File = File> + AllocGlobal> Device for DirDisk<'a, R> {
    fn simulated(&self) -> bool {
        false
    }

    fn arrange(&mut self, _alloc: Global, _rule: Rule) -> Result<bool, OutOfMemory>
        requires { IsAllowed _rule }
        ensures answer { IfOk result (λ done. done ≡ false) }
        ensures rest { IsArranged (Arranged.Armed _rule) (seen_of self.old) result (seen_of self.new) }
        ensures same { self.new ≡ self.old }
    {
        Ok(false)
    }

    fn crash(&mut self, _alloc: Global, _pick: Pick) -> Result<bool, OutOfMemory>
        ensures answer { IfOk result (λ done. done ≡ false) }
        ensures rest { IsArranged (Arranged.Crashed _pick) (seen_of self.old) result (seen_of self.new) }
        ensures same { self.new ≡ self.old }
    {
        Ok(false)
    }
}
