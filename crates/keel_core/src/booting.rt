// The resume step: a boot, or a resume that was asked for, makes tables of all segments, a log, and a manifest, and then the
// store takes writes.
ghost use Rattle.std.specs.Prelude.{◌≡◌, ℕ, ◌<◌, ◌^◌, ◌&&◌, nat_le, [], Option, None, IfSome, IsSome, IfOk, true};
ghost use Rattle.keel_machine.specs.Tests.{when};
ghost use Rattle.keel_core.specs.Covering.{AreTablesOfFull, Closes, IsNewJob, closed_by};
ghost use Rattle.keel_core.specs.Resuming.{Advances, GoesOn, IsRest, IsResting, IsToBegin, ResumesTurn, Takes, boot_rest_of, cleared, made_in, next_number};
ghost use Rattle.keel_core.specs.Views.{ToStart};
ghost use Rattle.keel_resume.specs.Jobs.{IsBehindManifest, draws_next};
ghost use Rattle.keel_resume.specs.Plans.{left_of};

use crate::boot::{Boot, Resumption};
use crate::closing::Closing;
use crate::handling::{note, stopping};
use crate::log::log_of;
use crate::store::Core;
use crate::tables::Tables;
use keel_base::{Counter, LAST_NUMBER, OutOfMemory};
use keel_disk::Disk;
use keel_machine::ResumeStep;
use keel_manifest::JobMove;
use keel_resume::ResumeJob;
use std::alloc::Global;

/// A job that makes no call yet, and how it takes over the active segment with its first one.
#[derive(Drop)]
pub(crate) struct NewJob {
    pub(crate) running: Resumption,
    pub(crate) closing: Closing,
}

impl<D: Disk> Core<D> {
    /// Makes the next call of the boot or resume, or its first one. `held` is the number of the one that the caller goes on
    /// with, where it holds one.
    pub fn resume_step(&mut self, alloc: Global, held: Option<u64>) -> ResumeStep
        ensures turn { ResumesTurn self.old held result self.new }
    {
        if let Some(rest) = self.boot_rest(held) {
            return rest;
        }
        match self.take_running() {
            Some((booted, running)) => self.go_on_job(alloc, booted, running),
            None => self.begin_job(alloc),
        }
    }

    // The job that runs is taken out, where one does.
    fn take_running(&mut self) -> Option<(bool, Resumption)>
        ensures { Takes self.old result self.new }
    {
        match std::mem::replace(&mut self.boot, Boot::ToStart) {
            Boot::Running { booted, running } => Some((booted, running)),
            boot => {
                self.boot = boot;
                None
            }
        }
    }

    // The job that runs makes its next call. Where memory is wanting it goes on running.
    fn go_on_job(&mut self, alloc: Global, booted: bool, running: Resumption) -> ResumeStep
        requires draws { draws_next (left_of running.job) ≡ true → self.old.next_file < 2 ^ 56 }
        ensures { GoesOn self.old booted running result self.new }
    {
        match self.advance_running(alloc, booted, running) {
            Ok(made) => made,
            Err(running) => {
                self.boot = Boot::Running { booted, running };
                ResumeStep::OutOfMemory
            }
        }
    }

    // The same, where want of memory hands it back. So does a row in the active segment, which has none while a job runs.
    fn advance_running(
        &mut self,
        alloc: Global,
        booted: bool,
        running: Resumption,
    ) -> Result<ResumeStep, Resumption>
        requires draws { draws_next (left_of running.job) ≡ true → self.old.next_file < 2 ^ 56 }
        ensures { Advances self.old self.old self.old.boot_job booted running result self.new }
    {
        if self.mem.weight() != 0 {
            return Err(running);
        }
        self.advance(alloc, Closing::Before, booted, running, self.boot_job)
    }

    // The job takes the memory of its tables and of its take-over, and makes its first call.
    fn begin_job(&mut self, alloc: Global) -> ResumeStep
        requires begins { IsToBegin self.old.boot }
        requires number { self.old.boot ≡ ToStart → self.old.boot_job < 2 ^ 56 }
        requires below { self.old.next_file < 2 ^ 56 }
        ensures turn { (held : Option ℕ) → boot_rest_of self.old held ≡ None → ResumesTurn self.old held result self.new }
    {
        let Ok(NewJob { running, closing }) = self.new_job(alloc) else {
            return ResumeStep::OutOfMemory;
        };
        let number = self.next_job();
        let booted = self.has_booted();
        let answer = self.advance(alloc, closing, booted, running, number);
        made_in(answer)
    }

    // The number of the job that begins.
    fn next_job(&self) -> u64
        requires begins { IsToBegin self.now.boot }
        requires number { self.now.boot ≡ ToStart → self.now.boot_job < 2 ^ 56 }
        ensures { result ≡ next_number self.now.boot self.now.boot_job }
    {
        match self.boot {
            Boot::ToStart => self.boot_job + 1,
            _ => self.boot_job,
        }
    }

    // What the step answers where it makes no call.
    fn boot_rest(&self, held: Option<u64>) -> Option<ResumeStep>
        ensures rest { result ≡ boot_rest_of self.now held }
        ensures rests { IfSome result IsRest }
    {
        if let Some(job) = held {
            if job != self.boot_job {
                return Some(ResumeStep::Cancelled {
                    job,
                    current: self.boot_job,
                });
            }
        }
        match &self.boot {
            Boot::ToStart => {
                if stopping(&self.handler).is_some() {
                    return Some(ResumeStep::Idle);
                }
                if self.boot_job >= LAST_NUMBER {
                    return Some(ResumeStep::Spent(Counter::JobNumber));
                }
                self.file_spent(true)
            }
            Boot::Started { .. } => self.file_spent(true),
            Boot::Running { running, .. } => self.file_spent(running.job.ahead().draws),
            Boot::Cleared | Boot::Closed { .. } => Some(ResumeStep::Idle),
        }
    }

    // A call that draws a file's number needs one below the end.
    fn file_spent(&self, draws: bool) -> Option<ResumeStep>
        ensures { result ≡ when (draws && nat_le (2 ^ 56) self.now.next_file) (ResumeStep.Spent Counter.FileNumber) }
    {
        if draws && self.next_file.number() >= LAST_NUMBER {
            return Some(ResumeStep::Spent(Counter::FileNumber));
        }
        None
    }

    // A job with a table before it for each segment, oldest first, and the memory to take over the active one.
    fn new_job(&self, alloc: Global) -> Result<NewJob, OutOfMemory>
        ensures { IfOk result (IsNewJob self.now) }
    {
        let mut job = self.job_of_full(alloc)?;
        if self.mem.weight() == 0 {
            return Ok(NewJob {
                running: Resumption { steps: 0, job },
                closing: Closing::Empty,
            });
        }
        job.cover(alloc, &self.mem)?;
        let closed = self.closed(alloc)?;
        Ok(NewJob {
            running: Resumption { steps: 0, job },
            closing: Closing::Full(closed),
        })
    }

    // A job with a table before it for each full segment.
    fn job_of_full(&self, alloc: Global) -> Result<ResumeJob, OutOfMemory>
        ensures { IfOk result (AreTablesOfFull self.now) }
    {
        let mut job = ResumeJob::new(alloc, self.tables.copied(alloc)?, self.last_seq);
        if self.tables.entries.len() >= MANY_TABLES {
            return Err(OutOfMemory);
        }
        for segment in self.segments.as_slice() {
            if segment.mem.weight() == 0 {
                return Err(OutOfMemory);
            }
            job.cover(alloc, &segment.mem)?;
        }
        Ok(job)
    }

    // The job of that number makes its next call, and with its first one takes over the active segment. Want of memory hands
    // it back.
    fn advance(
        &mut self,
        alloc: Global,
        closing: Closing,
        booted: bool,
        running: Resumption,
        number: u64,
    ) -> Result<ResumeStep, Resumption>
        requires closes { Closes closing self.old }
        requires draws { draws_next (left_of running.job) ≡ true → self.old.next_file < 2 ^ 56 }
        ensures { Advances self.old (closed_by closing self.old) number booted running result self.new }
    {
        let Resumption { steps, job } = running;
        let mut job = job;
        if steps == u64::MAX || !is_behind(&job, self.next_file.number()) {
            return Err(Resumption { steps, job });
        }
        match job.step(
            alloc,
            &mut self.disk,
            &mut self.manifest,
            &mut self.next_file,
        ) {
            JobMove::Moved(call) => {
                let running = Resumption {
                    steps: steps + 1,
                    job,
                };
                self.boot_job = number;
                self.boot = Boot::Running { booted, running };
                self.take_over(closing);
                Ok(ResumeStep::Moved { job: number, call })
            }
            JobMove::Done => {
                self.boot_job = number;
                self.take_over(closing);
                self.clear(job);
                Ok(ResumeStep::Cleared {
                    job: number,
                    steps: steps + 1,
                })
            }
            JobMove::Failed(failure) => {
                self.boot_job = number;
                self.boot = Boot::resting(booted);
                note(&mut self.handler, failure);
                self.take_over(closing);
                Ok(ResumeStep::Failed(failure))
            }
            JobMove::OutOfMemory => Err(Resumption { steps, job }),
        }
    }

    // The tables have all batches, and from now on the store takes writes. It takes no memory.
    fn clear(&mut self, job: ResumeJob)
        requires rows { self.old.rows ≡ [] }
        requires made { left_of job.job ≡ [] }
        requires log { IsSome job.job.progress.log }
        ensures { self.new ≡ cleared job.job self.old }
    {
        self.log = log_of(job.log());
        self.tables = Tables::new(job.into_tables());
        self.segments.clear();
        self.trail.clear();
        self.handed_seq = self.last_seq;
        self.handler.clear();
        self.boot = Boot::Cleared;
    }
}

/// So many tables and more are want of memory.
const MANY_TABLES: usize = 4_294_967_295;

// Whether the number of the job's manifest was drawn last. It always was, since nothing else draws while a job runs.
fn is_behind(job: &ResumeJob, next: u64) -> bool
    ensures { result ≡ true → IsBehindManifest job.now.job next }
{
    match job.manifest() {
        Some(number) => number < next && next - number == 1,
        None => true,
    }
}

// What was made, or want of memory.
fn made_in(answer: Result<ResumeStep, Resumption>) -> ResumeStep
    ensures { result ≡ made_in answer }
{
    match answer {
        Ok(made) => made,
        Err(_) => ResumeStep::OutOfMemory,
    }
}
