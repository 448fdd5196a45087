// One flush step, as a command of its own.
ghost use Rattle.std.specs.Prelude.{◌≡◌, [], ◌∷◌, Some, IfOk, IsErr, OnErr};
ghost use Rattle.keel_machine.specs.States.{State};
ghost use Rattle.keel_machine.specs.declared.steps.JobStep.TheVariants as steps;
ghost use Rattle.keel_core.specs.Flushes.{FlushesTurn};
ghost use Rattle.keel_core.specs.Views.{StandsFor};
ghost use Rattle.keel_cli.specs.Flushes.{FlushRun, FlushCut, flush_replies};
ghost use Rattle.keel_cli.specs.Jobs.{driven, flush_held};
ghost use Rattle.keel_cli.specs.Stores.{CoreLeads, StandsForSome};

use crate::HeldJobs;
use crate::holding::flush_held;
use keel_base::OutOfMemory;
use keel_core::Core;
use keel_disk::Device;
use keel_machine::JobStep;
use keel_script::Reply;
use std::alloc::Global;

// What a flush step is answered.
fn flush_reply(step: JobStep) -> Result<Reply, OutOfMemory>
    ensures printed { IfOk result (λ reply. flush_replies step ≡ Some (reply ∷ [])) }
    ensures cut { IsErr result → step ≡ steps.OutOfMemory }
{
    match step {
        JobStep::Idle => Ok(Reply::Idle),
        JobStep::Moved { job, call } => Ok(Reply::Moved { job, call }),
        JobStep::Done { job } => Ok(Reply::JobDone { job }),
        JobStep::Failed(failure) => Ok(Reply::Failed(failure)),
        JobStep::Spent(counter) => Ok(Reply::Spent(counter)),
        JobStep::Cancelled { job, current } => Ok(Reply::Cancelled { job, current }),
        JobStep::OutOfMemory => Err(OutOfMemory),
    }
}

/// Makes one flush step with the number that is held.
pub(crate) fn flush_step<V: Device>(
    alloc: Global,
    core: &mut Core<V>,
    jobs: &mut HeldJobs,
) -> JobStep
    ensures turn { FlushesTurn core.old jobs.old.flush result core.new }
    ensures jobs { jobs.new ≡ record jobs.old { flush = flush_held result jobs.old.flush } }
{
    let step = core.flush_step(alloc, jobs.flush);
    jobs.flush = flush_held(step, jobs.flush);
    step
}

/// Makes one flush step, and says what it did.
pub(crate) fn flush<V: Device>(
    alloc: Global,
    core: &mut Core<V>,
    jobs: &mut HeldJobs,
) -> Result<Reply, OutOfMemory>
    requires told { StandsForSome core.old }
    ensures carried { (s : State) → StandsFor core.old s
        → IfOk result (λ reply. CoreLeads core.new (λ new. FlushRun (driven s jobs.old) (reply ∷ []) (driven new jobs.new))) }
    ensures cut { (s : State) → StandsFor core.old s
        → OnErr result (CoreLeads core.new (λ new. FlushCut (driven s jobs.old) (driven new jobs.new))) }
    ensures told { StandsForSome core.new }
{
    let step = flush_step(alloc, core, jobs);
    flush_reply(step)
}
