// A write of one op: it is admitted, and write steps are made until it has an outcome.
ghost use Rattle.std.specs.Prelude.{◌≡◌, ◌≢◌, ℕ, [], ◌∷◌, IfOk, IsErr, OnErr, Some, length};
ghost use Rattle.keel_machine.specs.States.{State};
ghost use Rattle.keel_machine.specs.declared.answers.Admit.TheVariants as admit;
ghost use Rattle.keel_machine.specs.declared.answers.Part.TheVariants as parts;
ghost use Rattle.keel_core.specs.Views.{StandsFor};
ghost use Rattle.keel_cli.specs.declared.holding.HeldJobs.{HeldJobs as Jobs};
ghost use Rattle.keel_cli.specs.Jobs.{driven};
ghost use Rattle.keel_cli.specs.Stores.{CoreLeads, StandsForSome};
ghost use Rattle.keel_cli.specs.Puts.{put_batch as batch_of_put, del_batch as batch_of_del, refusal_replies, Tells, PutRun, PutCut, QueueRun, QueueCut};

use crate::HeldJobs;
use crate::stepping::write_step;
use keel_base::{Batch, Bytes, Op, Ops, OutOfMemory};
use keel_core::Core;
use keel_disk::Device;
use keel_machine::{Admit, Outcome, Part, WriteStep};
use keel_script::Reply;
use std::alloc::Global;

// The batch of one op.
fn one_op(alloc: Global, op: Op, sync: bool) -> Result<Batch, OutOfMemory>
    ensures { IfOk result (λ batch. batch ≡ record { ops = op ∷ []; sync = sync }) }
{
    let mut ops = Ops::new(alloc);
    ops.push(op)?;
    Ok(Batch { ops, sync })
}

// What a length outside its limits is answered. Of one op, it is that of the key or the value.
fn size_reply(part: Part, length: u64) -> Reply
    requires { part ≢ parts.Batch }
    ensures { refusal_replies (admit.BadSize part length) ≡ Some (result ∷ []) }
{
    match part {
        Part::Key => Reply::BadSizeKey { length },
        Part::Value => Reply::BadSizeValue { length },
        Part::Batch => unreachable!(),
    }
}

// What an admission came to, where memory did not end at it.
#[derive(Drop)]
enum Admitted {
    Queued(u64),
    Refused(Reply),
}

// The ticket of an admission, or the reply to its refusal. No count or weight of one op is refused.
fn ticket_or_reply(answer: Admit) -> Result<Admitted, OutOfMemory>
    requires { (length : ℕ) → answer ≢ admit.BadSize parts.Batch length }
    ensures tells { IfOk result (Tells answer) }
    ensures cut { IsErr result → answer ≡ admit.OutOfMemory }
{
    match answer {
        Admit::Queued { ticket } => Ok(Admitted::Queued(ticket)),
        Admit::BadSize { part, length } => Ok(Admitted::Refused(size_reply(part, length))),
        Admit::Closing => Ok(Admitted::Refused(Reply::NotOpen)),
        Admit::Booting => Ok(Admitted::Refused(Reply::Booting)),
        Admit::Stopped(failure) => Ok(Admitted::Refused(Reply::Stopped(failure))),
        Admit::Spent(counter) => Ok(Admitted::Refused(Reply::Spent(counter))),
        Admit::Full { active, immutables } => {
            Ok(Admitted::Refused(Reply::Full { active, immutables }))
        }
        Admit::QueueFull { waiting } => Ok(Admitted::Refused(Reply::QueueFull { waiting })),
        Admit::OutOfMemory => Err(OutOfMemory),
    }
}

/// Admits a batch of one op, and makes write steps until it has an outcome.
pub(crate) fn put_batch<V: Device>(
    alloc: Global,
    core: &mut Core<V>,
    jobs: &mut HeldJobs,
    batch: Batch,
) -> Result<Reply, OutOfMemory>
    requires one { length batch.ops ≡ 1 }
    requires told { StandsForSome core.old }
    ensures carried { (s : State) → StandsFor core.old s
        → IfOk result (λ reply. CoreLeads core.new (λ new. PutRun (driven s jobs.old) batch (reply ∷ []) (driven new jobs.new))) }
    ensures cut { (s : State) → StandsFor core.old s
        → OnErr result (CoreLeads core.new (λ new. PutCut (driven s jobs.old) batch (driven new jobs.new))) }
    ensures told { StandsForSome core.new }
{
    let ticket = match ticket_or_reply(core.admit(batch))? {
        Admitted::Queued(ticket) => ticket,
        Admitted::Refused(reply) => return Ok(reply),
    };
    'writing: loop {
        match core.take_outcome(ticket) {
            Outcome::Waiting => {}
            Outcome::Done { seq } => return Ok(Reply::PutOk { seq }),
            Outcome::Failed(failure) => return Ok(Reply::Failed(failure)),
            Outcome::Turned(failure) => return Ok(Reply::Stopped(failure)),
            Outcome::Closed => unreachable!(),
            Outcome::Unknown => unreachable!(),
        }
        match write_step(alloc, core, jobs) {
            WriteStep::OutOfMemory => return Err(OutOfMemory),
            WriteStep::Full { .. } => return Ok(Reply::Waiting { ticket }),
            WriteStep::Spent(_) => return Ok(Reply::Waiting { ticket }),
            WriteStep::Idle
            | WriteStep::Moved { .. }
            | WriteStep::Done { .. }
            | WriteStep::Failed(_)
            | WriteStep::Turned { .. }
            | WriteStep::Cancelled { .. } => {}
        }
    }
}

/// Admits a batch of one op, and makes no write step.
pub(crate) fn queue_batch<V: Device>(core: &mut Core<V>, batch: Batch) -> Result<Reply, OutOfMemory>
    requires one { length batch.ops ≡ 1 }
    requires told { StandsForSome core.old }
    ensures carried { (s : State) (jobs : Jobs) → StandsFor core.old s
        → IfOk result (λ reply. CoreLeads core.new (λ new. QueueRun (driven s jobs) batch (reply ∷ []) (driven new jobs))) }
    ensures cut { (s : State) (jobs : Jobs) → StandsFor core.old s
        → OnErr result (CoreLeads core.new (λ new. QueueCut (driven s jobs) batch (driven new jobs))) }
    ensures told { StandsForSome core.new }
{
    match ticket_or_reply(core.admit(batch))? {
        Admitted::Queued(ticket) => Ok(Reply::Queued { ticket }),
        Admitted::Refused(reply) => Ok(reply),
    }
}

/// The batch that puts a value at a key.
pub(crate) fn pair_batch(
    alloc: Global,
    key: &Bytes,
    value: &Bytes,
    sync: bool,
) -> Result<Batch, OutOfMemory>
    ensures { IfOk result (λ batch. batch ≡ batch_of_put key.now value.now sync) }
{
    let key = Bytes::from_slice(alloc, key.as_slice())?;
    let value = Bytes::from_slice(alloc, value.as_slice())?;
    one_op(alloc, Op::Put { key, value }, sync)
}

/// The batch that deletes a key.
pub(crate) fn key_batch(alloc: Global, key: &Bytes, sync: bool) -> Result<Batch, OutOfMemory>
    ensures { IfOk result (λ batch. batch ≡ batch_of_del key.now sync) }
{
    let key = Bytes::from_slice(alloc, key.as_slice())?;
    one_op(alloc, Op::Del { key }, sync)
}
