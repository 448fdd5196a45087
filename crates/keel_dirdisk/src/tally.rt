// What a device counts of its calls.
ghost use Rattle.std.specs.Prelude.{◌≡◌, ◌≢◌, IfSome, None};
ghost use Rattle.keel_base.specs.declared.failure.Fault.TheVariants.{SpaceLimit};
ghost use Rattle.keel_disk.specs.Counts.{FaultCounted, counted, disk_fault, read_fault};
ghost use Rattle.keel_dirdisk.specs.Answers.{read_answer_of, IsPlainOrFull};

use crate::stop::Stop;
use keel_base::Fault;
use keel_disk::{DiskError, ReadError};

/// How many changing calls were handed in, how often the device has failed, and how it failed last.
#[derive(Clone, Copy, Debug)]
pub struct Tally {
    pub changes: u64,
    pub faults: u64,
    pub last_fault: Option<Fault>,
}

impl Tally {
    pub fn new() -> Tally
        ensures changes { result.changes ≡ 0 }
        ensures faults { result.faults ≡ 0 }
        ensures last_fault { result.last_fault ≡ None }
    {
        Tally {
            changes: 0,
            faults: 0,
            last_fault: None,
        }
    }

    // Counts a failure.
    fn note(&mut self, fault: Fault)
        requires { fault ≢ SpaceLimit }
        ensures cause { FaultCounted self.old.faults self.new.faults self.new.last_fault (Some fault) }
        ensures changes { self.new.changes ≡ self.old.changes }
    {
        self.faults = self.faults.saturating_add(1);
        self.last_fault = Some(fault);
    }

    /// Counts the failure of a call, where it is one, and hands the answer on.
    pub fn look<T>(&mut self, answer: Result<T, DiskError>) -> Result<T, DiskError>
        requires { IfSome (disk_fault answer) (λ fault. fault ≢ SpaceLimit) }
        ensures answer { result ≡ answer }
        ensures cause { FaultCounted self.old.faults self.new.faults self.new.last_fault (disk_fault answer) }
        ensures changes { self.new.changes ≡ self.old.changes }
    {
        if let Err(DiskError::Fault(fault)) = &answer {
            self.note(*fault);
        }
        answer
    }

    /// The same of a changing call, which is counted too.
    pub fn change(&mut self, answer: Result<(), DiskError>) -> Result<(), DiskError>
        requires { IfSome (disk_fault answer) (λ fault. fault ≢ SpaceLimit) }
        ensures answer { result ≡ answer }
        ensures cause { FaultCounted self.old.faults self.new.faults self.new.last_fault (disk_fault answer) }
        ensures count { self.new.changes ≡ counted self.old.changes answer }
    {
        match answer {
            Ok(()) => {
                self.changes = self.changes.saturating_add(1);
                Ok(())
            }
            Err(DiskError::OutOfMemory) => Err(DiskError::OutOfMemory),
            Err(DiskError::Fault(fault)) => {
                self.changes = self.changes.saturating_add(1);
                self.note(fault);
                Err(DiskError::Fault(fault))
            }
        }
    }

    /// The answer of a call that reads a file, by how the work ended. A failure is counted.
    pub fn read<T>(&mut self, outcome: Result<Option<T>, Stop>) -> Result<T, ReadError>
        ensures answer { result ≡ read_answer_of outcome }
        ensures cause { FaultCounted self.old.faults self.new.faults self.new.last_fault (read_fault result) }
        ensures plain { IsPlainOrFull (read_fault result) }
        ensures changes { self.new.changes ≡ self.old.changes }
    {
        match outcome {
            Ok(Some(value)) => Ok(value),
            Ok(None) => Err(ReadError::Absent),
            Err(Stop::OutOfMemory) => Err(ReadError::OutOfMemory),
            Err(Stop::Host) => {
                self.note(Fault::Plain);
                Err(ReadError::Fault(Fault::Plain))
            }
            Err(Stop::Full) => {
                self.note(Fault::NoSpace);
                Err(ReadError::Fault(Fault::NoSpace))
            }
        }
    }
}
