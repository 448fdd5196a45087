// The job.
ghost use Rattle.std.specs.Prelude.{◌≡◌, false, IfOk};
ghost use Rattle.keel_draft.specs.Drafts.{added_of};
ghost use Rattle.keel_flush.specs.Plans.{appends_next, draws_next, is_last, left_of};

use crate::course::Course;
use crate::stage::Stage;
use keel_base::{Failure, OutOfMemory};
use keel_disk::{Disk, DiskError};
use keel_draft::TableDraft;
use keel_edit::Added;
use keel_manifest::{Ahead, JobMove, Manifest, NextFile};
use keel_mem::Mem;
use std::alloc::Global;
use std::marker::Model;

/// A flush of one segment. Contracts see it as `JobState`.
#[derive(Debug, Drop)]
pub struct FlushJob {
    course: Course,
}

impl Model for FlushJob {
    ghost use Rattle.keel_flush.specs.Jobs.{JobState};
    ghost use Rattle.keel_flush.specs.Courses.{IsOnCourse, state_in};

    ghost Value = { JobState };

    ghost view = { λ job. state_in job.course };

    ghost invariant = { λ job. IsOnCourse job.course };
}

impl FlushJob {
    ghost use Rattle.keel_flush.specs.Jobs.{Begins, JobSteps, MayDraw, Takes};

    /// A flush of a segment's memtable, before its first call. `min_log` is the log of the segment behind it. The table
    /// is made in memory.
    pub fn new(alloc: Global, mem: &Mem, min_log: u64) -> Result<FlushJob, OutOfMemory>
        ensures { IfOk result (Begins mem.now.rows min_log) }
    {
        let draft = TableDraft::of(alloc, mem)?;
        Ok(FlushJob {
            course: Course {
                min_log,
                draft,
                made: 0,
                table: None,
                stage: Stage::MakeTable,
                over: false,
            },
        })
    }

    /// Makes the next call, and answers which one, or that it was the last. Behind a failure the job makes no further
    /// call. Memory is taken before the call: where it is refused, all is as before.
    pub fn step<D: Disk>(
        &mut self,
        alloc: Global,
        disk: &mut D,
        manifest: &mut Manifest,
        next: &mut NextFile,
    ) -> JobMove
        requires going { self.old.over ≡ false }
        requires drawn { MayDraw self.old.job next.old.number }
        requires takes { Takes (left_of self.old.job) manifest.old }
        ensures { JobSteps result
            (record { state = self.old; next = next.old.number; manifest = manifest.old; seen = D.seen disk.old })
            (record { state = self.new; next = next.new.number; manifest = manifest.new; seen = D.seen disk.new }) }
    {
        let Some(made) = self.course.made.checked_add(1) else {
            return JobMove::OutOfMemory;
        };
        match self.course.call(alloc, disk, manifest, next) {
            Ok(call) => match self.course.behind() {
                Some(stage) => {
                    self.course.made = made;
                    self.course.stage = stage;
                    JobMove::Moved(call)
                }
                None => {
                    self.course.made = made;
                    self.course.over = true;
                    JobMove::Done
                }
            },
            Err(DiskError::Fault(fault)) => {
                self.course.over = true;
                JobMove::Failed(Failure {
                    reason: self.course.stage.reason(),
                    fault,
                })
            }
            Err(DiskError::OutOfMemory) => JobMove::OutOfMemory,
        }
    }

    /// What the next call is about.
    pub fn ahead(&self) -> Ahead
        requires { self.now.over ≡ false }
        ensures { result ≡ record { draws = draws_next (left_of self.now.job); edit = appends_next (left_of self.now.job) } }
    {
        Ahead {
            draws: self.course.stage.draws(),
            edit: self.course.stage.appends(),
        }
    }

    /// Whether the next call is the last one.
    pub fn ends(&self) -> bool
        requires { self.now.over ≡ false }
        ensures { result ≡ is_last (left_of self.now.job) }
    {
        self.course.stage.ends()
    }

    /// Whether it makes no further call: its last one was made, or one failed.
    pub fn over(&self) -> bool
        ensures { result ≡ self.now.over }
    {
        self.course.over
    }

    /// The number of the table that was handed to `create`.
    pub fn table(&self) -> Option<u64>
        ensures { result ≡ self.now.job.progress.table }
    {
        self.course.table
    }

    /// The table's entry in the version, where its file has that number.
    pub fn added(&self, alloc: Global, number: u64) -> Result<Added, OutOfMemory>
        ensures { IfOk result (λ added. added ≡ added_of number self.now.job.draft) }
    {
        self.course.draft.added(alloc, number)
    }

    /// The greatest sequence number of the segment.
    pub fn last_seq(&self) -> u64
        ensures { result ≡ self.now.job.draft.last }
    {
        self.course.draft.last()
    }
}
