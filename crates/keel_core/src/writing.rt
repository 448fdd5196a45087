// The write step: groups go to the log, one call of the device a step, and are published.
//
//   no group is in flight             a group is in flight, by its next act
//
//   a full segment --- sync --------> MakeLog
//                                       | create
//                                       v
//                                     SyncDirectory
//                                       | sync_dir, and another segment is active
//                                       v
//                                     AddRecords
//                                       | append
//   another one ------ append ----------+-----------> SyncLog      where a batch asks for a sync
//                                       |                | sync
//                                       v                v
//   no group <------------------ published <-------------+
//
// A call that fails ends its group, unpublished, and from then on no other one is formed. A failure of a flush ends no
// group in flight. The group is formed once its first call was made, since without memory all goes on waiting.
ghost use Rattle.std.specs.Prelude.{◌≡◌, ◌+◌, ◌<◌, ◌≤◌, ◌^◌, None, Some, IsNone, IsSome, IfNone, IfSome, IfOk, true};
ghost use Rattle.keel_batch.specs.Batches.{payloads_behind};
ghost use Rattle.keel_frag.specs.Writing.{records_bytes};
ghost use Rattle.keel_group.specs.Forming.{EachIsAdmissible, HasRoomFor, next_batches, next_size};
ghost use Rattle.keel_machine.specs.Admission.{ops_of};
ghost use Rattle.keel_machine.specs.Tests.{first_some};
ghost use Rattle.keel_machine.specs.Turns.{Writing};
ghost use Rattle.keel_machine.specs.WritingAfter.{failure_of};
ghost use Rattle.keel_draft.specs.Drafts.{count_ops};
ghost use Rattle.keel_core.specs.Flights.{batches_flying, is_synced, next_flying};
ghost use Rattle.keel_core.specs.Steps.{Makes, IsNotSwitch, NextIs, formed, handed_over, spoilt, all_published, published_step, done, done_step, tried, rested, stopped};
ghost use Rattle.keel_core.specs.Views.{TakesTurn, MakesCall, ComesNearer, CanGoOn, MayGoOn, HaveOps, Cleared, IsRest, Finds, draws_next, rest_of, rests_of};

use crate::flight::{Act, first_act};
use crate::handling::{note, stopping};
use crate::log::{OwnLog, log_failure};
use crate::placing::place;
use crate::queue::count_ops;
use crate::store::Core;
use keel_base::{Batch, Bytes, Call, Counter, Fault, FileName, LAST_NUMBER, OutOfMemory};
use keel_batch::encode;
use keel_disk::{Disk, DiskError};
use keel_frag::write_record;
use keel_group::Formed;
use keel_machine::{Outcome, WriteStep};
use std::alloc::Global;

impl<D: Disk> Core<D> {
    /// Makes the next call of the group in flight, or the first one of the queue's next group.
    /// `held` is the number of the group that the caller goes on with, where it holds one.
    pub fn write_step(&mut self, alloc: Global, held: Option<u64>) -> WriteStep
        ensures turn { TakesTurn self.old (Writing held result) self.new }
        ensures nearer { ComesNearer self.old result self.new }
    {
        match self.rest(held) {
            Some(rest) => self.rest_with(rest),
            None => {
                if self.is_ready() {
                    self.act(alloc)
                } else {
                    WriteStep::OutOfMemory
                }
            }
        }
    }

    // The step answers so, and makes no call.
    fn rest_with(&mut self, rest: WriteStep) -> WriteStep
        ensures step { result ≡ rest }
        ensures view { self.new ≡ rested rest self.old }
    {
        if let WriteStep::Turned { failure, .. } = rest {
            self.queue.turn_away(Outcome::Turned(failure));
        }
        rest
    }

    // What the step answers where it makes no call.
    fn rest(&self, held: Option<u64>) -> Option<WriteStep>
        ensures rest { result ≡ rest_of self.now held }
        ensures none { IfNone result (MayGoOn self.now) }
        ensures rests { IfSome result IsRest }
        ensures finds { IfSome result (Finds self.now) }
    {
        if let Some(job) = held {
            if job != self.queue.job {
                return Some(WriteStep::Cancelled {
                    job,
                    current: self.queue.job,
                });
            }
        }
        if self.queue.group.is_some() {
            return self.file_rest();
        }
        self.group_rest()
    }

    // The same where no group is in flight.
    fn group_rest(&self) -> Option<WriteStep>
        requires none { self.now.group ≡ None }
        ensures rest { result ≡ first_some (rests_of self.now None) }
        ensures none { IfNone result (MayGoOn self.now) }
        ensures rests { IfSome result IsRest }
        ensures finds { IfSome result (Finds self.now) }
    {
        let batches = self.queue.waiting.waiting();
        if batches == 0 {
            return Some(WriteStep::Idle);
        }
        if let Some(failure) = stopping(&self.handler) {
            return Some(WriteStep::Turned { batches, failure });
        }
        if self.is_store_full() {
            return Some(WriteStep::Full {
                active: self.mem.weight(),
                immutables: self.segments.len() as u32,
            });
        }
        if self.queue.job >= LAST_NUMBER {
            return Some(WriteStep::Spent(Counter::JobNumber));
        }
        if self.is_full() && self.next_file.number() >= LAST_NUMBER {
            return Some(WriteStep::Spent(Counter::FileNumber));
        }
        None
    }

    // The same where a group is in flight: a log that is to be made needs a number below the end.
    fn file_rest(&self) -> Option<WriteStep>
        requires some { IsSome self.now.group }
        ensures rest { result ≡ first_some (rests_of self.now self.now.group) }
        ensures none { IfNone result (MayGoOn self.now) }
        ensures rests { IfSome result IsRest }
        ensures finds { IfSome result (Finds self.now) }
    {
        if self.draws_next() && self.next_file.number() >= LAST_NUMBER {
            return Some(WriteStep::Spent(Counter::FileNumber));
        }
        None
    }

    // Whether the next call of the group in flight makes a log.
    fn draws_next(&self) -> bool
        ensures { result ≡ draws_next self.now.group }
    {
        match &self.queue.group {
            Some(flight) => flight.next.draws(),
            None => false,
        }
    }

    // The next act of the group in flight, or the first one of the next group.
    fn next_act(&self) -> Act
        ensures next { NextIs result self.now self.now.group }
        ensures limbo { HaveOps self.now.trail.limbo }
        ensures flying { HaveOps (ops_of (batches_flying self.now.group)) }
    {
        match &self.queue.group {
            Some(flight) => flight.next,
            None => first_act(self.is_full()),
        }
    }

    // Makes the next call.
    fn act(&mut self, alloc: Global) -> WriteStep
        requires { CanGoOn self.old }
        ensures turn { MakesCall self.old result self.new }
        ensures nearer { ComesNearer self.old result self.new }
    {
        if self.queue.group.is_some() {
            self.go_on(alloc)
        } else {
            self.start(alloc)
        }
    }

    // The group in flight makes its next call.
    fn go_on(&mut self, alloc: Global) -> WriteStep
        requires can { CanGoOn self.old }
        requires some { IsSome self.old.group }
        ensures turn { MakesCall self.old result self.new }
        ensures nearer { ComesNearer self.old result self.new }
    {
        let act = self.next_act();
        if let Act::SyncDirectory { log } = act {
            return self.switch(alloc, log);
        }
        match self.make_call(alloc, act) {
            Ok(()) => self.done(act),
            Err(DiskError::Fault(fault)) => self.give_up(act, fault),
            Err(DiskError::OutOfMemory) => WriteStep::OutOfMemory,
        }
    }

    // The next group makes its first call, and is then in flight.
    fn start(&mut self, alloc: Global) -> WriteStep
        requires can { CanGoOn self.old }
        requires none { self.old.group ≡ None }
        ensures turn { MakesCall self.old result self.new }
        ensures nearer { ComesNearer self.old result self.new }
    {
        let Ok(prepared) = self.queue.waiting.prepare() else {
            return WriteStep::OutOfMemory;
        };
        let act = self.next_act();
        match self.make_call(alloc, act) {
            Ok(()) => {
                self.form(prepared);
                self.done(act)
            }
            Err(DiskError::Fault(fault)) => {
                self.form(prepared);
                self.give_up(act, fault)
            }
            Err(DiskError::OutOfMemory) => WriteStep::OutOfMemory,
        }
    }

    // Makes the call of an act.
    fn make_call(&mut self, alloc: Global, act: Act) -> Result<(), DiskError>
        requires next { NextIs act self.old self.old.group }
        requires can { CanGoOn self.old }
        requires plain { IsNotSwitch act }
        ensures { Makes act self.old result self.new }
    {
        match act {
            Act::CloseLog | Act::SyncLog => {
                let log = self.log.unwrap();
                self.disk.sync(alloc, FileName::Log(log.number))
            }
            Act::MakeLog => self
                .disk
                .create(alloc, FileName::Log(self.next_file.number())),
            Act::SyncDirectory { .. } => unreachable!(),
            Act::AddRecords => self.append_records(alloc),
        }
    }

    // Appends a record for each batch of the group.
    fn append_records(&mut self, alloc: Global) -> Result<(), DiskError>
        requires { CanGoOn self.old }
        ensures { Makes Act.AddRecords self.old result self.new }
    {
        let log = self.log.unwrap();
        let Ok(bytes) = records_of(alloc, log.size, self.last_seq, self.queue.next_batches()) else {
            return Err(DiskError::OutOfMemory);
        };
        let Some(size) = log.size.checked_add(bytes.len() as u64) else {
            return Err(DiskError::OutOfMemory);
        };
        let answer = self
            .disk
            .append(alloc, FileName::Log(log.number), bytes.as_slice());
        if answer.is_ok() {
            self.log = Some(OwnLog { size, ..log });
        }
        answer
    }

    // The next group of those that wait is in flight.
    fn form(&mut self, prepared: Formed)
        requires none { self.old.group ≡ None }
        requires room { HasRoomFor (next_size self.old.waiting) prepared }
        requires cleared { self.old.boot ≡ Cleared }
        requires job { self.old.job < 2 ^ 56 }
        ensures view { self.new ≡ formed self.old }
        ensures each { EachIsAdmissible (next_batches self.old.waiting) }
    {
        let switches = self.is_full();
        self.queue.form(prepared, switches);
    }

    // What an act leaves whose call was answered Ok.
    fn done(&mut self, act: Act) -> WriteStep
        requires next { next_flying self.old.group ≡ Some act }
        requires plain { IsNotSwitch act }
        requires file { act ≡ Act.MakeLog → self.old.next_file < 2 ^ 56 }
        ensures view { self.new ≡ done act self.old }
        ensures step { result ≡ done_step act self.old }
    {
        match act {
            Act::CloseLog => self.queue.move_on(Act::MakeLog, Call::Sync),
            Act::MakeLog => {
                let log = self.next_file.draw();
                self.queue.move_on(Act::SyncDirectory { log }, Call::Create)
            }
            Act::SyncDirectory { .. } => unreachable!(),
            Act::AddRecords => {
                if self.hand_over() {
                    self.queue.move_on(Act::SyncLog, Call::Append)
                } else {
                    self.publish(false)
                }
            }
            Act::SyncLog => self.publish(true),
        }
    }

    // What an act leaves whose call failed: its group is over, and from now on no other one is formed.
    pub(crate) fn give_up(&mut self, act: Act, fault: Fault) -> WriteStep
        requires next { next_flying self.old.group ≡ Some act }
        requires file { act ≡ Act.MakeLog → self.old.next_file < 2 ^ 56 }
        ensures view { self.new ≡ stopped fault (tried act self.old) }
        ensures step { result ≡ WriteStep.Failed (failure_of fault) }
    {
        self.tried(act);
        let failure = log_failure(fault);
        self.queue.settle(Outcome::Failed(failure));
        note(&mut self.handler, failure);
        WriteStep::Failed(failure)
    }

    // A number is used up though the call failed, batches may be found in the log, and a log takes nothing more.
    fn tried(&mut self, act: Act)
        requires next { next_flying self.old.group ≡ Some act }
        requires file { act ≡ Act.MakeLog → self.old.next_file < 2 ^ 56 }
        ensures { self.new ≡ tried act self.old }
    {
        match act {
            Act::CloseLog | Act::SyncLog => self.spoil_log(),
            Act::MakeLog => {
                let _ = self.next_file.draw();
            }
            Act::SyncDirectory { .. } => {}
            Act::AddRecords => {
                self.spoil_log();
                let _ = self.hand_over();
            }
        }
    }

    // A call on the log failed.
    fn spoil_log(&mut self)
        ensures { self.new ≡ spoilt self.old }
    {
        if let Some(log) = &mut self.log {
            log.failed = true;
        }
    }

    // The batches of the group in flight were handed to the log. Says whether it is to be synced.
    fn hand_over(&mut self) -> bool
        requires { next_flying self.old.group ≡ Some Act.AddRecords }
        ensures view { self.new ≡ handed_over self.old }
        ensures sync { result ≡ is_synced self.old.group }
    {
        let sync = self.queue.is_synced();
        let batches = self.queue.take_batches();
        self.handed_seq += count_ops(&batches);
        self.trail.hand(batches);
        sync
    }

    // What was handed over is published, and the group is over.
    fn publish(&mut self, sync: bool) -> WriteStep
        ensures view { self.new ≡ all_published sync self.old }
        ensures step { result ≡ published_step sync self.old }
    {
        let batches = self.queue.in_flight() as u32;
        place(&mut self.mem, self.last_seq + 1, self.trail.limbo());
        self.queue.settle_done(self.last_seq, self.trail.limbo());
        self.trail.publish(sync);
        self.last_seq = self.handed_seq;
        WriteStep::Done {
            job: self.queue.job,
            seq: self.last_seq,
            batches,
        }
    }
}

// The records of batches that are numbered on behind an op, behind so many bytes of a log.
fn records_of(alloc: Global, size: u64, last: u64, batches: &[Batch]) -> Result<Bytes, OutOfMemory>
    requires each { EachIsAdmissible batches.now }
    requires numbers { last + count_ops (ops_of batches.now) ≤ 2 ^ 56 }
    ensures { IfOk result (λ bytes. bytes ≡ records_bytes size (payloads_behind last (ops_of batches.now))) }
{
    let mut bytes = Bytes::new(alloc);
    let mut seq = last;
    for batch in batches {
        let payload = encode(alloc, seq + 1, batch)?;
        let Some(offset) = size.checked_add(bytes.len() as u64) else {
            return Err(OutOfMemory);
        };
        let record = write_record(alloc, offset, payload.as_slice())?;
        bytes.extend(record.as_slice())?;
        seq += batch.ops.len() as u64;
    }
    Ok(bytes)
}
