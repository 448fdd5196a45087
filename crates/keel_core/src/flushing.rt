// The flush step: the oldest full segment becomes a table, and then its log is needed no more.
ghost use Rattle.std.specs.Prelude.{◌≡◌, ℕ, ◌<◌, ◌^◌, ◌∷◌, [], drop, Option, None, IfSome, IfOk, true, false};
ghost use Rattle.keel_flush.specs.Plans.{draws_next, is_last, left_of};
ghost use Rattle.keel_manifest.specs.State.{IsAppendedTo, IsFirmAt};
ghost use Rattle.keel_levels.specs.Live.{tables_of};
ghost use Rattle.keel_machine.specs.Flushing.{first_log};
ghost use Rattle.keel_core.specs.Flights.{log_shown};
ghost use Rattle.keel_core.specs.Flushes.{Advances, FlushesTurn, GoesOn, IsNewFlush, IsRest, flush_rest_of, flushed, log_in, made_in, next_log, tables_with, may_flush};
ghost use Rattle.keel_core.specs.Segments.{segments_shown};
ghost use Rattle.keel_core.specs.Views.{Cleared};

use crate::handling::note;
use crate::log::OwnLog;
use crate::segments::Segment;
use crate::store::Core;
use crate::tables::Tables;
use keel_base::{Counter, Failure, LAST_NUMBER, OutOfMemory};
use keel_disk::Disk;
use keel_draft::with_new;
use keel_edit::AddedList;
use keel_flush::FlushJob;
use keel_machine::JobStep;
use keel_manifest::{InUse, JobMove, Manifest, Progress};
use std::alloc::Global;
use std::marker::Model;

/// A flush that makes further calls.
#[derive(Drop)]
pub(crate) struct Flushing {
    pub(crate) job: FlushJob,
}

impl Model for Flushing {
    ghost use Rattle.std.specs.Prelude.{◌≡◌, false};
    ghost use Rattle.keel_flush.specs.Plans.{Job};

    ghost Value = { Job };

    ghost view = { λ f. f.job.job };

    ghost invariant = { λ f. f.job.over ≡ false };
}

impl<D: Disk> Core<D> {
    /// Makes the next call of the flush, or its first one. `held` is the number of the flush that the caller goes on with,
    /// where it holds one.
    pub fn flush_step(&mut self, alloc: Global, held: Option<u64>) -> JobStep
        ensures turn { FlushesTurn self.old held result self.new }
    {
        if let Some(rest) = self.flush_rest(held) {
            return rest;
        }
        if !self.is_ready() {
            return JobStep::OutOfMemory;
        }
        match self.flush.take() {
            Some(running) => self.go_on_flushing(alloc, running),
            None => self.start_flush(alloc),
        }
    }

    // The flush that runs makes its next call. Where memory is wanting it goes on running.
    fn go_on_flushing(&mut self, alloc: Global, running: Flushing) -> JobStep
        requires cleared { self.old.boot ≡ Cleared }
        requires none { self.old.flush ≡ None }
        requires draws { draws_next (left_of running) ≡ true → self.old.next_file < 2 ^ 56 }
        ensures { GoesOn self.old running result self.new }
    {
        match self.advance_flush(alloc, running, self.flush_job) {
            Ok(made) => made,
            Err(running) => {
                self.flush = Some(running);
                JobStep::OutOfMemory
            }
        }
    }

    // The flush takes the memory of its table, and makes its first call.
    fn start_flush(&mut self, alloc: Global) -> JobStep
        requires cleared { self.old.boot ≡ Cleared }
        requires none { self.old.flush ≡ None }
        requires number { self.old.flush_job < 2 ^ 56 }
        requires below { self.old.next_file < 2 ^ 56 }
        ensures turn { (held : Option ℕ) → flush_rest_of self.old held ≡ None → FlushesTurn self.old held result self.new }
    {
        let Ok(running) = self.new_flush(alloc) else {
            return JobStep::OutOfMemory;
        };
        let answer = self.advance_flush(alloc, running, self.flush_job + 1);
        made_in(answer)
    }

    // What the step answers where it makes no call.
    fn flush_rest(&self, held: Option<u64>) -> Option<JobStep>
        ensures rest { result ≡ flush_rest_of self.now held }
        ensures rests { IfSome result IsRest }
        ensures number { result ≡ None → self.now.flush ≡ None → self.now.flush_job < 2 ^ 56 }
        ensures below { result ≡ None → self.now.flush ≡ None → self.now.next_file < 2 ^ 56 }
    {
        if let Some(job) = held {
            if job != self.flush_job {
                return Some(JobStep::Cancelled {
                    job,
                    current: self.flush_job,
                });
            }
        }
        if !self.may_flush() {
            return Some(JobStep::Idle);
        }
        match &self.flush {
            None => {
                if self.flush_job >= LAST_NUMBER {
                    return Some(JobStep::Spent(Counter::JobNumber));
                }
                if self.next_file.number() >= LAST_NUMBER {
                    return Some(JobStep::Spent(Counter::FileNumber));
                }
                None
            }
            Some(flushing) => {
                if flushing.job.ahead().draws && self.next_file.number() >= LAST_NUMBER {
                    return Some(JobStep::Spent(Counter::FileNumber));
                }
                None
            }
        }
    }

    // Whether a full segment may be flushed.
    fn may_flush(&self) -> bool
        ensures { result ≡ may_flush self.now }
    {
        let writes = self.has_booted() && !self.is_closed();
        writes && !self.handler.work_stops() && !self.segments.is_empty()
    }

    // A flush of the oldest full segment.
    fn new_flush(&self, alloc: Global) -> Result<Flushing, OutOfMemory>
        ensures { IfOk result (IsNewFlush self.now) }
    {
        if self.tables.entries.len() >= MANY_TABLES {
            return Err(OutOfMemory);
        }
        let Some(oldest) = self.segments.first() else {
            return Err(OutOfMemory);
        };
        if oldest.mem.weight() == 0 {
            return Err(OutOfMemory);
        }
        let job = FlushJob::new(alloc, &oldest.mem, self.next_log())?;
        Ok(Flushing { job })
    }

    // The log of the segment behind the oldest full one.
    fn next_log(&self) -> u64
        ensures { result ≡ next_log self.now }
    {
        match self.segments.as_slice() {
            [] => log_in(self.segments.as_slice(), self.log),
            [_, later @ ..] => log_in(later, self.log),
        }
    }

    // The flush of that number makes its next call. Want of memory hands it back.
    fn advance_flush(
        &mut self,
        alloc: Global,
        running: Flushing,
        number: u64,
    ) -> Result<JobStep, Flushing>
        requires cleared { self.old.boot ≡ Cleared }
        requires none { self.old.flush ≡ None }
        requires draws { draws_next (left_of running) ≡ true → self.old.next_file < 2 ^ 56 }
        ensures { Advances self.old number running result self.new }
    {
        if running.job.ends() {
            self.end_flush(alloc, running, number)
        } else {
            self.move_flush(alloc, running, number)
        }
    }

    // It makes a call that isn't the last one.
    fn move_flush(
        &mut self,
        alloc: Global,
        running: Flushing,
        number: u64,
    ) -> Result<JobStep, Flushing>
        requires cleared { self.old.boot ≡ Cleared }
        requires none { self.old.flush ≡ None }
        requires draws { draws_next (left_of running) ≡ true → self.old.next_file < 2 ^ 56 }
        requires more { is_last (left_of running) ≡ false }
        ensures { Advances self.old number running result self.new }
    {
        let Flushing { job } = running;
        let mut job = job;
        if job.ahead().edit && !is_firm(&self.manifest) {
            return Err(Flushing { job });
        }
        match job.step(
            alloc,
            &mut self.disk,
            &mut self.manifest,
            &mut self.next_file,
        ) {
            JobMove::Moved(call) => {
                self.flush_job = number;
                self.flush = Some(Flushing { job });
                Ok(JobStep::Moved { job: number, call })
            }
            JobMove::Done => unreachable!(),
            JobMove::Failed(failure) => {
                self.flush_job = number;
                note(&mut self.handler, failure);
                Ok(JobStep::Failed(failure))
            }
            JobMove::OutOfMemory => Err(Flushing { job }),
        }
    }

    // It makes its last call. The memory of the tables behind it is taken before.
    fn end_flush(
        &mut self,
        alloc: Global,
        running: Flushing,
        number: u64,
    ) -> Result<JobStep, Flushing>
        requires cleared { self.old.boot ≡ Cleared }
        requires none { self.old.flush ≡ None }
        requires last { is_last (left_of running) ≡ true }
        ensures { Advances self.old number running result self.new }
    {
        let Flushing { job } = running;
        let mut job = job;
        if !is_appended(&self.manifest) {
            return Err(Flushing { job });
        }
        let Ok(tables) = self.tables_with(alloc, &job) else {
            return Err(Flushing { job });
        };
        match job.step(
            alloc,
            &mut self.disk,
            &mut self.manifest,
            &mut self.next_file,
        ) {
            JobMove::Moved(_) => unreachable!(),
            JobMove::Done => {
                self.flush_job = number;
                self.leave_oldest(tables);
                Ok(JobStep::Done { job: number })
            }
            JobMove::Failed(failure) => {
                self.flush_job = number;
                note(&mut self.handler, failure);
                Ok(JobStep::Failed(failure))
            }
            JobMove::OutOfMemory => Err(Flushing { job }),
        }
    }

    // The store's tables with that of the flush.
    fn tables_with(&self, alloc: Global, job: &FlushJob) -> Result<AddedList, OutOfMemory>
        ensures { IfOk result (λ tables. tables ≡ tables_with job.now.job (tables_of self.now.levels)) }
    {
        let Some(number) = job.table() else {
            return Err(OutOfMemory);
        };
        let mut new = AddedList::new(alloc);
        new.push(job.added(alloc, number)?)?;
        with_new(alloc, self.tables.entries.as_slice(), new.as_slice())
    }

    // The oldest segment is gone, and these are the tables. It takes no memory.
    fn leave_oldest(&mut self, tables: AddedList)
        ensures { self.new ≡ flushed tables self.old }
    {
        self.tables = Tables::new(tables);
        leave_first(&mut self.segments);
    }
}

/// So many tables and more are want of memory.
const MANY_TABLES: usize = 4_294_967_295;

// The first log of these segments, or the active one's.
fn log_in(segments: &[Segment], active: Option<OwnLog>) -> u64
    ensures { result ≡ log_in (segments_shown segments.now) (log_shown active) }
{
    match segments {
        [] => match active {
            Some(log) => log.number,
            None => 0,
        },
        [segment, ..] => first_log(segment.logs.as_slice()),
    }
}

fn first_log(logs: &[u64]) -> u64
    ensures { result ≡ first_log logs.now }
{
    match logs {
        [] => 0,
        [number, ..] => *number,
    }
}

// The first of these segments is gone, where there is one.
fn leave_first(segments: &mut Vec<Segment>)
    ensures { segments.new.items ≡ drop 1 segments.old.items }
{
    if !segments.is_empty() {
        let _ = segments.remove(0);
    }
}

// Whether an edit may be appended to the manifest in use.
fn is_firm(manifest: &Manifest) -> bool
    ensures { result ≡ true → IsFirmAt manifest.now }
{
    match manifest.in_use() {
        Some(
            InUse {
                progress: Progress::Firm { .. },
                ..
            },
        ) => true,
        _ => false,
    }
}

// Whether an edit was appended to it that is to be synced.
fn is_appended(manifest: &Manifest) -> bool
    ensures { result ≡ true → IsAppendedTo manifest.now }
{
    match manifest.in_use() {
        Some(
            InUse {
                progress: Progress::Appended { .. },
                ..
            },
        ) => true,
        _ => false,
    }
}

// What was made, or want of memory.
fn made_in(answer: Result<JobStep, Flushing>) -> JobStep
    ensures { result ≡ made_in answer }
{
    match answer {
        Ok(made) => made,
        Err(_) => JobStep::OutOfMemory,
    }
}
