// The simulated device. It tells its state.
ghost use Rattle.std.specs.Prelude.{◌≡◌, ◌≢◌, None, Some, length, Option, Bool, true, IfOk, IfSome};
ghost use Rattle.keel_base.specs.declared.failure.Fault.TheVariants.{SpaceLimit};
ghost use Rattle.keel_base.specs.Counts.{raised};
ghost use Rattle.keel_base.specs.Name.{IsName};
ghost use Rattle.keel_disk.specs.declared.rule.Arranged.TheVariants as arranged;
ghost use Rattle.keel_disk.specs.Counts.{FaultCounted, disk_fault, read_fault};
ghost use Rattle.keel_disk.specs.Listings.{IsListing};
ghost use Rattle.keel_disk.specs.Rule.{IsAllowed};
ghost use Rattle.keel_disk.specs.Seen.{Calls, IsQuiet, IsArranged, AreAtMost};
ghost use Rattle.keel_disk.specs.Sound.{IsAtRest, IsLawful};
ghost use Rattle.keel_disk.specs.Told.{TellsAbsent, TellsRead, TellsSize, TellsListing, TellsRoom, Arranges, Crashes};
ghost use Rattle.keel_simdisk.specs.Rules.{planned_of};
ghost use Rattle.keel_simdisk.specs.Calls.{empty_disk, told_of, seen_of, kind_of as kind, is_overfull, failure_of, MakesCall, ReadsFile, ReadsDisk, ArmsRule, MakesCrash};

use crate::medium::Medium;
use crate::noted::Noted;
use crate::rules::{Armed, Met, Planned, Rules, plan_of};
use keel_base::{Bytes, Call, Fault, FileName, Listing, OutOfMemory};
use keel_disk::{Arranged, Change, Device, Disk, DiskError, Pick, ReadError, Rule};
use std::alloc::Global;

/// A device in memory, which fails and crashes as it is told.
#[derive(Drop)]
pub struct SimDisk {
    state: Medium,
    capacity: u64,
    rules: Rules,
    last: Option<Change>,
    changes: u64,
    faults: u64,
    last_fault: Option<Fault>,
    forged: u64,
    arranged: Noted,
}

fn kind_of(change: &Change) -> Call
    ensures { result ≡ kind change.now }
{
    match change {
        Change::Create { name: _ } => Call::Create,
        Change::Append { name: _, bytes: _ } => Call::Append,
        Change::Sync { name: _ } => Call::Sync,
        Change::Rename { from: _, to: _ } => Call::Rename,
        Change::Remove { name: _ } => Call::Remove,
        Change::Cut { name: _, length: _ } => Call::Cut,
        Change::SyncDir => Call::SyncDir,
    }
}

impl SimDisk {
    /// An empty directory for so many bytes, with nothing armed.
    pub fn new(alloc: Global, capacity: u64) -> SimDisk
        ensures empty { result ≡ empty_disk capacity }
        ensures at_rest { IsAtRest (told_of result).state }
    {
        SimDisk {
            state: Medium::new(alloc),
            capacity,
            rules: Rules::new(alloc),
            last: None,
            changes: 0,
            faults: 0,
            last_fault: None,
            forged: 0,
            arranged: Noted::new(alloc),
        }
    }

    /// How many crashes left a forged image, up to 2^64 - 1.
    pub fn forged(&self) -> u64
        ensures { result ≡ (told_of self.now).forged }
    {
        self.forged
    }

    // Whether the bytes of an append are more than the capacity leaves.
    fn is_overfull(&self, change: &Change) -> bool
        ensures { result ≡ is_overfull change.now self.now }
    {
        match change {
            Change::Append { name: _, bytes } => match self.state.left(self.capacity) {
                None => true,
                Some(left) => left < bytes.len() as u64,
            },
            Change::Create { name: _ } => false,
            Change::Sync { name: _ } => false,
            Change::Rename { from: _, to: _ } => false,
            Change::Remove { name: _ } => false,
            Change::Cut { name: _, length: _ } => false,
            Change::SyncDir => false,
        }
    }

    // How a call fails that met this rule, or none.
    fn failure(&self, met: Option<Met>, change: &Change) -> Option<Planned>
        requires { IfSome met (λ m. m.armed.fault ≢ SpaceLimit) }
        ensures which { result ≡ failure_of (planned_of met) change.now self.now }
        ensures allowed { IfSome result (λ planned. planned.fault ≢ SpaceLimit) }
    {
        if let Some(planned) = plan_of(met) {
            return Some(planned);
        }
        if self.is_overfull(change) {
            return Some(Planned {
                fault: Fault::NoSpace,
                keep: 0,
            });
        }
        None
    }

    // A changing call was handed in.
    fn note(&mut self, change: Change)
        ensures { self.new ≡ record self.old { last = Some change; changes = raised self.old.changes } }
    {
        self.last = Some(change);
        self.changes = self.changes.saturating_add(1);
    }

    // A call failed.
    fn note_fault(&mut self, fault: Fault)
        requires { fault ≢ SpaceLimit }
        ensures after { self.new ≡ record self.old { faults = raised self.old.faults; last_fault = Some fault } }
        ensures cause { FaultCounted (seen_of self.old).faults (seen_of self.new).faults (seen_of self.new).last_fault (Some fault) }
    {
        let before = self.faults;
        self.faults = before.saturating_add(1);
        self.last_fault = Some(fault);
    }

    // Makes a changing call, or refuses it, or lets it fail.
    fn make(&mut self, alloc: Global, change: Change) -> Result<(), DiskError>
        requires { IsLawful change }
        ensures exact { MakesCall change self.old result self.new }
        ensures call { Calls (seen_of self.old) change result (seen_of self.new) }
    {
        if !self.state.takes(&change) {
            self.note(change);
            self.note_fault(Fault::Plain);
            return Err(DiskError::Fault(Fault::Plain));
        }
        let met = self.rules.first(kind_of(&change));
        let Some(planned) = self.failure(met, &change) else {
            self.state.make(alloc, &change)?;
            self.rules.count(met);
            self.note(change);
            return Ok(());
        };
        self.state.fail(alloc, &change, planned.keep)?;
        self.rules.count(met);
        self.note(change);
        self.note_fault(planned.fault);
        Err(DiskError::Fault(planned.fault))
    }
}

impl Disk for SimDisk {
    ghost seen = { seen_of };

    fn create(&mut self, alloc: Global, name: FileName) -> Result<(), DiskError>
        requires { IsName name }
        ensures exact { MakesCall (Change.Create name) self.old result self.new }
        ensures call { Calls (seen_of self.old) (Change.Create name) result (seen_of self.new) }
    {
        self.make(alloc, Change::Create { name })
    }

    fn append(&mut self, alloc: Global, name: FileName, bytes: &[u8]) -> Result<(), DiskError>
        ensures exact { MakesCall (Change.Append name bytes.now) self.old result self.new }
        ensures call { Calls (seen_of self.old) (Change.Append name bytes.now) result (seen_of self.new) }
    {
        let copy = Bytes::from_slice(alloc, bytes)?;
        self.make(alloc, Change::Append { name, bytes: copy })
    }

    fn sync(&mut self, alloc: Global, name: FileName) -> Result<(), DiskError>
        ensures exact { MakesCall (Change.Sync name) self.old result self.new }
        ensures call { Calls (seen_of self.old) (Change.Sync name) result (seen_of self.new) }
    {
        self.make(alloc, Change::Sync { name })
    }

    fn rename(&mut self, alloc: Global, from: FileName, to: FileName) -> Result<(), DiskError>
        requires { IsName to }
        ensures exact { MakesCall (Change.Rename from to) self.old result self.new }
        ensures call { Calls (seen_of self.old) (Change.Rename from to) result (seen_of self.new) }
    {
        self.make(alloc, Change::Rename { from, to })
    }

    fn remove(&mut self, alloc: Global, name: FileName) -> Result<(), DiskError>
        ensures exact { MakesCall (Change.Remove name) self.old result self.new }
        ensures call { Calls (seen_of self.old) (Change.Remove name) result (seen_of self.new) }
    {
        self.make(alloc, Change::Remove { name })
    }

    fn cut(&mut self, alloc: Global, name: FileName, length: u64) -> Result<(), DiskError>
        ensures exact { MakesCall (Change.Cut name length) self.old result self.new }
        ensures call { Calls (seen_of self.old) (Change.Cut name length) result (seen_of self.new) }
    {
        self.make(alloc, Change::Cut { name, length })
    }

    fn sync_dir(&mut self, alloc: Global) -> Result<(), DiskError>
        ensures exact { MakesCall Change.SyncDir self.old result self.new }
        ensures call { Calls (seen_of self.old) Change.SyncDir result (seen_of self.new) }
    {
        self.make(alloc, Change::SyncDir)
    }

    fn read_at(
        &mut self,
        alloc: Global,
        name: FileName,
        offset: u64,
        length: u32,
    ) -> Result<Bytes, ReadError>
        ensures exact { ReadsFile self.old result self.new }
        ensures bytes { TellsRead name offset length (Some (told_of self.old)) result }
        ensures bound { IfOk result (AreAtMost length) }
        ensures absent { TellsAbsent name (Some (told_of self.old)) result }
        ensures quiet { IsQuiet (seen_of self.old) (read_fault result) (seen_of self.new) }
    {
        let met = self.rules.first(Call::Read);
        if let Some(planned) = plan_of(met) {
            self.rules.count(met);
            self.note_fault(planned.fault);
            return Err(ReadError::Fault(planned.fault));
        }
        let part = self.state.read(alloc, name, offset, length)?;
        self.rules.count(met);
        match part {
            None => Err(ReadError::Absent),
            Some(bytes) => Ok(bytes),
        }
    }

    fn size(&mut self, _alloc: Global, name: FileName) -> Result<u64, ReadError>
        ensures exact { ReadsFile self.old result self.new }
        ensures size { TellsSize name (Some (told_of self.old)) result }
        ensures absent { TellsAbsent name (Some (told_of self.old)) result }
        ensures quiet { IsQuiet (seen_of self.old) (read_fault result) (seen_of self.new) }
    {
        let met = self.rules.first(Call::Read);
        self.rules.count(met);
        if let Some(planned) = plan_of(met) {
            self.note_fault(planned.fault);
            return Err(ReadError::Fault(planned.fault));
        }
        match self.state.size(name) {
            None => Err(ReadError::Absent),
            Some(size) => Ok(size),
        }
    }

    fn list(&mut self, alloc: Global) -> Result<Listing, DiskError>
        ensures exact { ReadsDisk self.old result self.new }
        ensures listing { IfOk result (TellsListing (Some (told_of self.old))) }
        ensures order { IfOk result IsListing }
        ensures quiet { IsQuiet (seen_of self.old) (disk_fault result) (seen_of self.new) }
    {
        let met = self.rules.first(Call::Read);
        if let Some(planned) = plan_of(met) {
            self.rules.count(met);
            self.note_fault(planned.fault);
            return Err(DiskError::Fault(planned.fault));
        }
        let listing = self.state.list(alloc)?;
        self.rules.count(met);
        Ok(listing)
    }

    fn free(&mut self, _alloc: Global) -> Result<u64, DiskError>
        ensures exact { ReadsDisk self.old result self.new }
        ensures room { IfOk result (TellsRoom (Some (told_of self.old))) }
        ensures quiet { IsQuiet (seen_of self.old) (disk_fault result) (seen_of self.new) }
    {
        let met = self.rules.first(Call::Read);
        self.rules.count(met);
        if let Some(planned) = plan_of(met) {
            self.note_fault(planned.fault);
            return Err(DiskError::Fault(planned.fault));
        }
        match self.state.left(self.capacity) {
            None => Ok(0),
            Some(left) => Ok(left),
        }
    }
}

impl Device for SimDisk {
    fn simulated(&self) -> bool {
        true
    }

    fn arrange(&mut self, _alloc: Global, rule: Rule) -> Result<bool, OutOfMemory>
        requires { IsAllowed rule }
        ensures exact { ArmsRule rule self.old result self.new }
        ensures answer { IfOk result (λ done. done ≡ true) }
        ensures told { Arranges (Some (told_of self.old)) result (Some (told_of self.new)) }
        ensures rest { IsArranged (arranged.Armed rule) (seen_of self.old) result (seen_of self.new) }
    {
        self.arranged.note(Arranged::Armed(rule))?;
        match rule {
            Rule::Capacity(bytes) => self.capacity = bytes,
            Rule::Fail {
                call,
                fault,
                skip,
                times,
                keep,
            } => {
                let armed = Armed {
                    call,
                    fault,
                    skip,
                    times,
                    keep,
                };
                if let Err(error) = self.rules.arm(armed) {
                    self.arranged.take_back();
                    return Err(error);
                }
            }
        }
        Ok(true)
    }

    fn crash(&mut self, alloc: Global, pick: Pick) -> Result<bool, OutOfMemory>
        ensures exact { MakesCrash pick self.old result self.new }
        ensures answer { IfOk result (λ done. done ≡ true) }
        ensures told { Crashes (Some (told_of self.old)) result (Some (told_of self.new)) }
        ensures rest { IsArranged (arranged.Crashed pick) (seen_of self.old) result (seen_of self.new) }
    {
        let left = self.state.restarted(alloc, pick)?;
        self.arranged.note(Arranged::Crashed(pick))?;
        self.state = left.medium;
        self.rules.clear();
        if !left.plain {
            self.forged = self.forged.saturating_add(1);
        }
        Ok(true)
    }
}
