// One write step, as a command of its own.
ghost use Rattle.std.specs.Prelude.{◌≡◌, [], ◌∷◌, Some, IfOk, IsErr, OnErr};
ghost use Rattle.keel_machine.specs.States.{State};
ghost use Rattle.keel_machine.specs.declared.steps.WriteStep.TheVariants as steps;
ghost use Rattle.keel_machine.specs.Turns.{Writing};
ghost use Rattle.keel_core.specs.Views.{ComesNearer, StandsFor, TakesTurn};
ghost use Rattle.keel_cli.specs.Jobs.{driven, write_held};
ghost use Rattle.keel_cli.specs.Stores.{CoreLeads, StandsForSome};
ghost use Rattle.keel_cli.specs.Writes.{WriteRun, WriteCut, step_replies};

use crate::HeldJobs;
use crate::holding::write_held;
use keel_base::OutOfMemory;
use keel_core::Core;
use keel_disk::Device;
use keel_machine::WriteStep;
use keel_script::Reply;
use std::alloc::Global;

// What a write step is answered.
fn step_reply(step: WriteStep) -> Result<Reply, OutOfMemory>
    ensures printed { IfOk result (λ reply. step_replies step ≡ Some (reply ∷ [])) }
    ensures cut { IsErr result → step ≡ steps.OutOfMemory }
{
    match step {
        WriteStep::Idle => Ok(Reply::Idle),
        WriteStep::Moved { job, call } => Ok(Reply::Moved { job, call }),
        WriteStep::Done { job, seq, batches } => Ok(Reply::WriteDone { job, seq, batches }),
        WriteStep::Failed(failure) => Ok(Reply::Failed(failure)),
        WriteStep::Turned { batches, failure } => Ok(Reply::Turned { batches, failure }),
        WriteStep::Full { active, immutables } => Ok(Reply::Full { active, immutables }),
        WriteStep::Spent(counter) => Ok(Reply::Spent(counter)),
        WriteStep::Cancelled { job, current } => Ok(Reply::Cancelled { job, current }),
        WriteStep::OutOfMemory => Err(OutOfMemory),
    }
}

/// Makes one write step with the number that is held.
pub(crate) fn write_step<V: Device>(
    alloc: Global,
    core: &mut Core<V>,
    jobs: &mut HeldJobs,
) -> WriteStep
    ensures turn { TakesTurn core.old (Writing jobs.old.write result) core.new }
    ensures jobs { jobs.new ≡ record jobs.old { write = write_held result jobs.old.write } }
    ensures nearer { ComesNearer core.old result core.new }
{
    let step = core.write_step(alloc, jobs.write);
    jobs.write = write_held(step, jobs.write);
    step
}

/// Makes one write step, and says what it did.
pub(crate) fn write<V: Device>(
    alloc: Global,
    core: &mut Core<V>,
    jobs: &mut HeldJobs,
) -> Result<Reply, OutOfMemory>
    requires told { StandsForSome core.old }
    ensures carried { (s : State) → StandsFor core.old s
        → IfOk result (λ reply. CoreLeads core.new (λ new. WriteRun (driven s jobs.old) (reply ∷ []) (driven new jobs.new))) }
    ensures cut { (s : State) → StandsFor core.old s
        → OnErr result (CoreLeads core.new (λ new. WriteCut (driven s jobs.old) (driven new jobs.new))) }
    ensures told { StandsForSome core.new }
{
    let step = write_step(alloc, core, jobs);
    step_reply(step)
}
