// The job.
ghost use Rattle.std.specs.Prelude.{◌≡◌, ◌<◌, ◌≤◌, ◌^◌, [], false, true, length, OnErr, OnOk};
ghost use Rattle.keel_resume.specs.Plans.{job_of, left_of, nothing_made};

use crate::course::Course;
use crate::stage::Stage;
use keel_base::{Failure, OutOfMemory, Sequence};
use keel_disk::{Disk, DiskError};
use keel_draft::TableDraft;
use keel_edit::AddedList;
use keel_manifest::{Ahead, JobMove, Manifest, NextFile};
use keel_mem::Mem;
use std::alloc::Global;
use std::marker::Model;

/// The most tables that a version has.
const MOST_TABLES: usize = 0xffff_ffff;

/// A job that leads to a new manifest. Contracts see it as `JobState`.
#[derive(Debug, Drop)]
pub struct ResumeJob {
    course: Course,
}

impl Model for ResumeJob {
    ghost use Rattle.keel_resume.specs.Jobs.{JobState};
    ghost use Rattle.keel_resume.specs.Courses.{IsOnCourse, state_in};

    ghost Value = { JobState };

    ghost view = { λ job. state_in job.course };

    ghost invariant = { λ job. IsOnCourse job.course };
}

impl ResumeJob {
    ghost use Rattle.keel_resume.specs.Jobs.{Covers, IsBehindManifest, JobSteps, MayDraw, draws_next, tables_of};

    /// A job with no table before it, for a version of these tables and this last sequence number.
    pub fn new(alloc: Global, live: AddedList, last_seq: u64) -> ResumeJob
        ensures job { result.job ≡ job_of live last_seq [] }
        ensures over { result.over ≡ false }
    {
        ResumeJob {
            course: Course {
                live,
                last_seq,
                drafts: Sequence::new(alloc),
                made: 0,
                numbers: Sequence::new(alloc),
                log: None,
                manifest: None,
                temporary: None,
                stage: Stage::MakeLog,
                roll: None,
                tables: AddedList::new(alloc),
                over: false,
            },
        }
    }

    /// Puts the table of a memtable behind the others. Want of memory leaves all as it was, and is also the answer
    /// where the version would have 2^32 tables.
    pub fn cover(&mut self, alloc: Global, mem: &Mem) -> Result<(), OutOfMemory>
        requires start { self.old.job.progress ≡ nothing_made }
        requires going { self.old.over ≡ false }
        ensures ok { OnOk result (Covers mem.now.rows self.old self.new) }
        ensures err { OnErr result (self.new ≡ self.old) }
    {
        let tables = self.course.drafts.len();
        if MOST_TABLES <= tables || MOST_TABLES - tables <= self.course.live.len() {
            return Err(OutOfMemory);
        }
        self.course.drafts.push(TableDraft::of(alloc, mem)?)?;
        self.course.stage = Stage::MakeTable { table: 0 };
        Ok(())
    }

    /// Makes the next call, and answers which one, or that it was the last. Behind a failure the job makes no further
    /// call. Memory is taken before the call: where it is refused, all is as before.
    pub fn step<D: Disk>(
        &mut self,
        alloc: Global,
        disk: &mut D,
        manifest: &mut Manifest,
        next: &mut NextFile,
    ) -> JobMove
        requires going { self.old.over ≡ false }
        requires drawn { MayDraw self.old.job next.old.number }
        requires behind { IsBehindManifest self.old.job next.old.number }
        ensures { JobSteps result
            (record { state = self.old; next = next.old.number; manifest = manifest.old; seen = D.seen disk.old })
            (record { state = self.new; next = next.new.number; manifest = manifest.new; seen = D.seen disk.new }) }
    {
        let Some(made) = self.course.made.checked_add(1) else {
            return JobMove::OutOfMemory;
        };
        match self.course.call(alloc, disk, manifest, next) {
            Ok(call) => match self.course.behind() {
                Some(stage) => {
                    self.course.made = made;
                    self.course.stage = stage;
                    JobMove::Moved(call)
                }
                None => {
                    self.course.made = made;
                    self.course.over = true;
                    JobMove::Done
                }
            },
            Err(DiskError::Fault(fault)) => {
                self.course.over = true;
                JobMove::Failed(Failure {
                    reason: self.course.stage.reason(),
                    fault,
                })
            }
            Err(DiskError::OutOfMemory) => JobMove::OutOfMemory,
        }
    }

    /// What the next call is about.
    pub fn ahead(&self) -> Ahead
        requires { self.now.over ≡ false }
        ensures { result ≡ record { draws = draws_next (left_of self.now.job); edit = false } }
    {
        Ahead {
            draws: self.course.stage.draws(),
            edit: false,
        }
    }

    /// Whether it makes no further call: its last one was made, or one failed.
    pub fn over(&self) -> bool
        ensures { result ≡ self.now.over }
    {
        self.course.over
    }

    /// The number of the log that was handed to `create`.
    pub fn log(&self) -> Option<u64>
        ensures { result ≡ self.now.job.progress.log }
    {
        self.course.log
    }

    /// The number of the manifest that was.
    pub fn manifest(&self) -> Option<u64>
        ensures { result ≡ self.now.job.progress.manifest }
    {
        self.course.manifest
    }

    /// The tables of the new version, behind the last call.
    pub fn into_tables(self) -> AddedList
        requires { left_of self.job ≡ [] }
        ensures { result ≡ tables_of self.job }
    {
        self.course.tables
    }
}
