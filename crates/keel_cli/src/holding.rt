// The job numbers that a driver holds, and what each step leaves of them.
ghost use Rattle.std.specs.Prelude.{◌≡◌};
ghost use Rattle.keel_cli.specs.Jobs.{flush_held, no_jobs, resume_held, start_held, write_held};

use keel_machine::{JobStep, ResumeStep, Start, WriteStep};

/// Of each job the number that the driver holds, with which its next step is made.
#[derive(Clone, Copy)]
pub struct HeldJobs {
    pub write: Option<u64>,
    pub flush: Option<u64>,
    pub resume: Option<u64>,
}

impl HeldJobs {
    /// None is held.
    pub(crate) fn none() -> HeldJobs
        ensures { result ≡ no_jobs }
    {
        HeldJobs {
            write: None,
            flush: None,
            resume: None,
        }
    }
}

/// The number that is held of the writer behind a step.
pub(crate) fn write_held(step: WriteStep, held: Option<u64>) -> Option<u64>
    ensures { result ≡ write_held step held }
{
    match step {
        WriteStep::Moved { job, .. } => Some(job),
        WriteStep::Done { .. } | WriteStep::Failed(_) | WriteStep::Cancelled { .. } => None,
        WriteStep::Idle
        | WriteStep::Turned { .. }
        | WriteStep::Full { .. }
        | WriteStep::Spent(_)
        | WriteStep::OutOfMemory => held,
    }
}

/// The same of the flush.
pub(crate) fn flush_held(step: JobStep, held: Option<u64>) -> Option<u64>
    ensures { result ≡ flush_held step held }
{
    match step {
        JobStep::Moved { job, .. } => Some(job),
        JobStep::Done { .. } | JobStep::Failed(_) | JobStep::Cancelled { .. } => None,
        JobStep::Idle | JobStep::Spent(_) | JobStep::OutOfMemory => held,
    }
}

/// The same of the boot or resume.
pub(crate) fn resume_held(step: ResumeStep, held: Option<u64>) -> Option<u64>
    ensures { result ≡ resume_held step held }
{
    match step {
        ResumeStep::Moved { job, .. } => Some(job),
        ResumeStep::Cleared { .. } | ResumeStep::Failed(_) | ResumeStep::Cancelled { .. } => None,
        ResumeStep::Idle | ResumeStep::Spent(_) | ResumeStep::OutOfMemory => held,
    }
}

/// The same where a resume was asked for.
pub(crate) fn start_held(start: Start, held: Option<u64>) -> Option<u64>
    ensures { result ≡ start_held start held }
{
    match start {
        Start::Started { job } => Some(job),
        Start::Closing
        | Start::Nothing
        | Start::Busy { .. }
        | Start::Beyond(_)
        | Start::Cleared
        | Start::Spent(_) => held,
    }
}
