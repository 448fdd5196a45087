// Going round the actors until all rest: the boot, the writer and the flush.
ghost use Rattle.std.specs.Prelude.{◌≡◌, ◌≤◌, Some, IfOk, IsErr, OnErr, [], ◌∷◌};
ghost use Rattle.keel_machine.specs.States.{State};
ghost use Rattle.keel_core.specs.Views.{StandsFor};
ghost use Rattle.keel_cli.specs.Drains.{DrainRun, DrainCut, moves_of_boot, moves_of_flush, moves_of_write};
ghost use Rattle.keel_machine.specs.declared.steps.JobStep.TheVariants as job_steps;
ghost use Rattle.keel_machine.specs.declared.steps.ResumeStep.TheVariants as resume_steps;
ghost use Rattle.keel_machine.specs.declared.steps.WriteStep.TheVariants as steps;
ghost use Rattle.keel_cli.specs.Jobs.{driven};
ghost use Rattle.keel_cli.specs.Stores.{CoreLeads, StandsForSome};

use crate::HeldJobs;
use crate::booting::resume_step;
use crate::flushing::flush_step;
use crate::stepping::write_step;
use keel_base::OutOfMemory;
use keel_core::Core;
use keel_disk::Device;
use keel_machine::{JobStep, ResumeStep, WriteStep};
use keel_script::Reply;
use std::alloc::Global;

// How many moves a step of the boot was: one, or none where the boot rests.
fn moves_of_boot(step: ResumeStep) -> Result<u64, OutOfMemory>
    ensures moves { IfOk result (λ moves. moves_of_boot step ≡ Some moves) }
    ensures few { IfOk result (λ moves. moves ≤ 1) }
    ensures cut { IsErr result → step ≡ resume_steps.OutOfMemory }
{
    match step {
        ResumeStep::Idle | ResumeStep::Spent(_) => Ok(0),
        ResumeStep::OutOfMemory => Err(OutOfMemory),
        ResumeStep::Moved { .. }
        | ResumeStep::Cleared { .. }
        | ResumeStep::Failed(_)
        | ResumeStep::Cancelled { .. } => Ok(1),
    }
}

// The same of a step of the writer.
fn moves_of_write(step: WriteStep) -> Result<u64, OutOfMemory>
    ensures moves { IfOk result (λ moves. moves_of_write step ≡ Some moves) }
    ensures few { IfOk result (λ moves. moves ≤ 1) }
    ensures cut { IsErr result → step ≡ steps.OutOfMemory }
{
    match step {
        WriteStep::Idle | WriteStep::Full { .. } | WriteStep::Spent(_) => Ok(0),
        WriteStep::OutOfMemory => Err(OutOfMemory),
        WriteStep::Moved { .. }
        | WriteStep::Done { .. }
        | WriteStep::Failed(_)
        | WriteStep::Turned { .. }
        | WriteStep::Cancelled { .. } => Ok(1),
    }
}

// The same of a step of the flush.
fn moves_of_flush(step: JobStep) -> Result<u64, OutOfMemory>
    ensures moves { IfOk result (λ moves. moves_of_flush step ≡ Some moves) }
    ensures few { IfOk result (λ moves. moves ≤ 1) }
    ensures cut { IsErr result → step ≡ job_steps.OutOfMemory }
{
    match step {
        JobStep::Idle | JobStep::Spent(_) => Ok(0),
        JobStep::OutOfMemory => Err(OutOfMemory),
        JobStep::Moved { .. }
        | JobStep::Done { .. }
        | JobStep::Failed(_)
        | JobStep::Cancelled { .. } => Ok(1),
    }
}

/// Makes so many moves at most, and says whether the actors rest or there may be more to do.
pub(crate) fn drain<V: Device>(
    alloc: Global,
    core: &mut Core<V>,
    jobs: &mut HeldJobs,
    moves: u64,
) -> Result<Reply, OutOfMemory>
    requires told { StandsForSome core.old }
    ensures carried { (s : State) → StandsFor core.old s
        → IfOk result (λ reply. CoreLeads core.new (λ new. DrainRun moves (driven s jobs.old) (reply ∷ []) (driven new jobs.new))) }
    ensures cut { (s : State) → StandsFor core.old s
        → OnErr result (CoreLeads core.new (λ new. DrainCut moves (driven s jobs.old) (driven new jobs.new))) }
    ensures told { StandsForSome core.new }
{
    let mut made = 0;
    'rounds: while made < moves {
        let step = resume_step(alloc, core, jobs);
        let booted = moves_of_boot(step)?;
        if made + booted == moves {
            return Ok(Reply::More);
        }
        let step = write_step(alloc, core, jobs);
        let written = moves_of_write(step)?;
        if made + booted + written == moves {
            return Ok(Reply::More);
        }
        let step = flush_step(alloc, core, jobs);
        let flushed = moves_of_flush(step)?;
        if booted + written + flushed == 0 {
            return Ok(Reply::Quiet);
        }
        made += booted + written + flushed;
    }
    Ok(Reply::More)
}
