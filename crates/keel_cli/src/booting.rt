// One resume step, as a command of its own.
ghost use Rattle.std.specs.Prelude.{◌≡◌, [], ◌∷◌, Some, IfOk, IsErr, OnErr};
ghost use Rattle.keel_machine.specs.States.{State};
ghost use Rattle.keel_machine.specs.declared.steps.ResumeStep.TheVariants as steps;
ghost use Rattle.keel_core.specs.Resuming.{ResumesTurn};
ghost use Rattle.keel_core.specs.Views.{StandsFor};
ghost use Rattle.keel_cli.specs.Boots.{BootRun, BootCut, boot_replies};
ghost use Rattle.keel_cli.specs.Jobs.{driven, resume_held};
ghost use Rattle.keel_cli.specs.Stores.{CoreLeads, StandsForSome};

use crate::HeldJobs;
use crate::holding::resume_held;
use keel_base::OutOfMemory;
use keel_core::Core;
use keel_disk::Device;
use keel_machine::ResumeStep;
use keel_script::Reply;
use std::alloc::Global;

// What a resume step is answered.
fn boot_reply(step: ResumeStep) -> Result<Reply, OutOfMemory>
    ensures printed { IfOk result (λ reply. boot_replies step ≡ Some (reply ∷ [])) }
    ensures cut { IsErr result → step ≡ steps.OutOfMemory }
{
    match step {
        ResumeStep::Idle => Ok(Reply::Idle),
        ResumeStep::Moved { job, call } => Ok(Reply::Moved { job, call }),
        ResumeStep::Cleared { job, steps } => Ok(Reply::JobCleared { job, steps }),
        ResumeStep::Failed(failure) => Ok(Reply::Failed(failure)),
        ResumeStep::Spent(counter) => Ok(Reply::Spent(counter)),
        ResumeStep::Cancelled { job, current } => Ok(Reply::Cancelled { job, current }),
        ResumeStep::OutOfMemory => Err(OutOfMemory),
    }
}

/// Makes one resume step with the number that is held.
pub(crate) fn resume_step<V: Device>(
    alloc: Global,
    core: &mut Core<V>,
    jobs: &mut HeldJobs,
) -> ResumeStep
    ensures turn { ResumesTurn core.old jobs.old.resume result core.new }
    ensures jobs { jobs.new ≡ record jobs.old { resume = resume_held result jobs.old.resume } }
{
    let step = core.resume_step(alloc, jobs.resume);
    jobs.resume = resume_held(step, jobs.resume);
    step
}

/// Makes one resume step, and says what it did.
pub(crate) fn resume<V: Device>(
    alloc: Global,
    core: &mut Core<V>,
    jobs: &mut HeldJobs,
) -> Result<Reply, OutOfMemory>
    requires told { StandsForSome core.old }
    ensures carried { (s : State) → StandsFor core.old s
        → IfOk result (λ reply. CoreLeads core.new (λ new. BootRun (driven s jobs.old) (reply ∷ []) (driven new jobs.new))) }
    ensures cut { (s : State) → StandsFor core.old s
        → OnErr result (CoreLeads core.new (λ new. BootCut (driven s jobs.old) (driven new jobs.new))) }
    ensures told { StandsForSome core.new }
{
    let step = resume_step(alloc, core, jobs);
    boot_reply(step)
}
