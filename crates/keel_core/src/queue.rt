// The batches that wait, the group in flight, and the outcomes that weren't taken.
ghost use Rattle.std.specs.Prelude.{◌≡◌, ◌+◌, ◌<◌, ◌≤◌, ◌^◌, ◌++◌, ◌==◌, [], true, not, filter, length, drop, vec_len, vec_capacity, None, Some, is_some, OnOk};
ghost use Rattle.std.specs.List.{list_any};
ghost use Rattle.keel_group.specs.Forming.{EachIsAdmissible, HasRoomFor, next_batches, next_size};
ghost use Rattle.keel_group.specs.Queue.{batches_of, tickets_of};
ghost use Rattle.keel_machine.specs.Admission.{ops_of, outcome_kept};
ghost use Rattle.keel_draft.specs.Drafts.{count_ops};
ghost use Rattle.keel_core.specs.Flights.{batches_flying, tickets_flying};
ghost use Rattle.keel_machine.specs.WritingAfter.{done_each, seq_behind};
ghost use Rattle.keel_core.specs.Queues.{given};
ghost use Rattle.keel_core.specs.Starting.{number_behind};
ghost use Rattle.keel_machine.specs.Closing.{number_behind as number_closed};

use crate::flight::{Act, Flight, first_act};
use crate::shutdown::number_closed;
use crate::starting::number_behind;
use keel_base::{Batch, Call, Failure, OutOfMemory};
use keel_group::{Formed, MAX_WAITING, WaitQueue};
use keel_machine::{Outcome, WriteStep};
use std::alloc::Global;

/// There is always room for the outcomes of all that wait and of the group in flight.
#[derive(Drop)]
pub(crate) struct Queue {
    pub(crate) waiting: WaitQueue,
    pub(crate) group: Option<Flight>,
    pub(crate) outcomes: Vec<(u64, Outcome)>,
    pub(crate) last_ticket: u64,
    pub(crate) job: u64,
}

impl Queue {
    ghost use Rattle.keel_core.specs.Flights.{flying, gone_to, is_synced, without_batches};
    ghost use Rattle.keel_core.specs.Queues.{IsNewQueue, batches_next, next_flight, outcome_told, on_its_way};

    pub(crate) fn new(alloc: Global) -> Queue
        ensures { IsNewQueue result }
    {
        Queue {
            waiting: WaitQueue::new(alloc),
            group: None,
            outcomes: Vec::new(alloc),
            last_ticket: 0,
            job: 0,
        }
    }

    /// How many batches the group in flight has tickets for.
    pub(crate) fn in_flight(&self) -> usize
        ensures { result ≡ length (tickets_flying (flying self.now.group)) }
    {
        match &self.group {
            Some(group) => group.tickets.len(),
            None => 0,
        }
    }

    /// How many batches the group in flight has still to hand over.
    pub(crate) fn held(&self) -> usize
        ensures { result ≡ length (batches_flying (flying self.now.group)) }
    {
        match &self.group {
            Some(group) => group.batches.len(),
            None => 0,
        }
    }

    /// Takes the memory of one batch more, and of the outcomes of all that wait, of this one, and of the group in flight.
    pub(crate) fn reserve(&mut self) -> Result<(), OutOfMemory>
        requires { length (tickets_flying (flying self.old.group)) ≤ 64 }
        ensures waiting { self.new.waiting.items ≡ self.old.waiting.items }
        ensures spare { OnOk result (0 < self.new.waiting.spare) }
        ensures group { self.new.group ≡ self.old.group }
        ensures outcomes { self.new.outcomes.items ≡ self.old.outcomes.items }
        ensures last_ticket { self.new.last_ticket ≡ self.old.last_ticket }
        ensures job { self.new.job ≡ self.old.job }
        ensures len { vec_len self.new.outcomes ≡ vec_len self.old.outcomes }
        ensures room { vec_capacity self.old.outcomes ≤ vec_capacity self.new.outcomes }
        ensures ok { OnOk result (vec_len self.new.outcomes + (length (tickets_flying (flying self.old.group)) + length self.old.waiting.items + 1) ≤ vec_capacity self.new.outcomes) }
    {
        self.waiting.reserve()?;
        let count = self.in_flight() + self.waiting.waiting() as usize + 1;
        self.outcomes.reserve(count)?;
        Ok(())
    }

    /// How many ops wait or are in flight and aren't handed to the log.
    #[tactic(auto, using(crate::proofs::Lists::ops_counted))]
    pub(crate) fn ops_before(&self) -> u64
        requires { count_ops (ops_of (batches_flying (flying self.now.group))) + count_ops (ops_of (batches_of self.now.waiting.items)) < 2 ^ 64 }
        ensures { result ≡ count_ops (ops_of (batches_flying (flying self.now.group))) + count_ops (ops_of (batches_of self.now.waiting.items)) }
    {
        self.ops_held() + self.waiting.waiting_ops()
    }

    // How many ops of the group in flight aren't handed to the log.
    fn ops_held(&self) -> u64
        requires { count_ops (ops_of (batches_flying (flying self.now.group))) < 2 ^ 64 }
        ensures { result ≡ count_ops (ops_of (batches_flying (flying self.now.group))) }
    {
        match &self.group {
            Some(group) => count_ops(&group.batches),
            None => 0,
        }
    }

    /// The batches that the next append hands to the log.
    pub(crate) fn next_batches(&self) -> &[Batch]
        ensures batches { result.now ≡ batches_next self.now.waiting.items (flying self.now.group) }
        ensures each { EachIsAdmissible (batches_flying (flying self.now.group)) → EachIsAdmissible result.now }
    {
        match &self.group {
            Some(group) => group.batches.as_slice(),
            None => self.waiting.next(),
        }
    }

    /// Whether the group in flight is to be synced.
    pub(crate) fn is_synced(&self) -> bool
        ensures { result ≡ is_synced (flying self.now.group) }
    {
        match &self.group {
            Some(group) => group.sync,
            None => false,
        }
    }

    /// The batches that wait form the next group, in what was prepared for it.
    pub(crate) fn form(&mut self, prepared: Formed, switches: bool)
        requires room { HasRoomFor (next_size self.old.waiting.items) prepared }
        requires job { self.old.job < 2 ^ 56 }
        ensures waiting { self.new.waiting.items ≡ drop (next_size self.old.waiting.items) self.old.waiting.items }
        ensures group { flying self.new.group ≡ Some (next_flight self.old.waiting.items switches) }
        ensures job { self.new.job ≡ self.old.job + 1 }
        ensures outcomes { self.new.outcomes ≡ self.old.outcomes }
        ensures last_ticket { self.new.last_ticket ≡ self.old.last_ticket }
        ensures each { EachIsAdmissible (next_batches self.old.waiting.items) }
        ensures few { next_size self.old.waiting.items ≤ MAX_WAITING }
    {
        let mut formed = prepared;
        self.waiting.take_next(&mut formed);
        let Formed {
            batches,
            tickets,
            sync,
        } = formed;
        self.job += 1;
        self.group = Some(Flight {
            tickets,
            batches,
            switches,
            sync,
            next: first_act(switches),
        });
    }

    /// The group in flight made this call, and goes on with this act.
    pub(crate) fn move_on(&mut self, next: Act, call: Call) -> WriteStep
        ensures step { result ≡ WriteStep.Moved self.old.job call }
        ensures group { flying self.new.group ≡ gone_to next (flying self.old.group) }
        ensures waiting { self.new.waiting ≡ self.old.waiting }
        ensures outcomes { self.new.outcomes ≡ self.old.outcomes }
        ensures last_ticket { self.new.last_ticket ≡ self.old.last_ticket }
        ensures job { self.new.job ≡ self.old.job }
    {
        if let Some(group) = &mut self.group {
            group.next = next;
        }
        WriteStep::Moved {
            job: self.job,
            call,
        }
    }

    /// The batches of the group in flight are handed out.
    pub(crate) fn take_batches(&mut self) -> Vec<Batch>
        ensures batches { result.items ≡ batches_flying (flying self.old.group) }
        ensures group { flying self.new.group ≡ without_batches (flying self.old.group) }
        ensures waiting { self.new.waiting ≡ self.old.waiting }
        ensures outcomes { self.new.outcomes ≡ self.old.outcomes }
        ensures last_ticket { self.new.last_ticket ≡ self.old.last_ticket }
        ensures job { self.new.job ≡ self.old.job }
    {
        let alloc = *self.outcomes.allocator();
        match &mut self.group {
            Some(group) => std::mem::replace(&mut group.batches, Vec::new(alloc)),
            None => Vec::new(alloc),
        }
    }

    /// The group in flight is over: a call failed, and each of its batches has that outcome.
    pub(crate) fn settle(&mut self, outcome: Outcome)
        requires { vec_len self.old.outcomes + length (tickets_flying (flying self.old.group)) ≤ vec_capacity self.old.outcomes }
        ensures waiting { self.new.waiting ≡ self.old.waiting }
        ensures group { self.new.group ≡ None }
        ensures outcomes { self.new.outcomes.items ≡ self.old.outcomes.items ++ given outcome (tickets_flying (flying self.old.group)) }
        ensures len { vec_len self.new.outcomes ≡ vec_len self.old.outcomes + length (tickets_flying (flying self.old.group)) }
        ensures last_ticket { self.new.last_ticket ≡ self.old.last_ticket }
        ensures job { self.new.job ≡ self.old.job }
        ensures room { vec_capacity self.new.outcomes ≡ vec_capacity self.old.outcomes }
    {
        if let Some(group) = self.group.take() {
            give(&mut self.outcomes, &group.tickets, outcome);
        }
    }

    /// The group in flight, where there is one, is over: another job begins, and each of its batches has that failure. Whoever
    /// holds its number is told.
    pub(crate) fn cancel(&mut self, failure: Failure)
        requires room { vec_len self.old.outcomes + length (tickets_flying (flying self.old.group)) ≤ vec_capacity self.old.outcomes }
        requires job { is_some (flying self.old.group) ≡ true → self.old.job < 2 ^ 56 }
        ensures waiting { self.new.waiting ≡ self.old.waiting }
        ensures group { self.new.group ≡ None }
        ensures outcomes { self.new.outcomes.items ≡ self.old.outcomes.items ++ given (Outcome.Failed failure) (tickets_flying (flying self.old.group)) }
        ensures len { vec_len self.new.outcomes ≡ vec_len self.old.outcomes + length (tickets_flying (flying self.old.group)) }
        ensures last_ticket { self.new.last_ticket ≡ self.old.last_ticket }
        ensures job { self.new.job ≡ number_behind (is_some (flying self.old.group)) self.old.job }
        ensures room { vec_capacity self.new.outcomes ≡ vec_capacity self.old.outcomes }
    {
        self.job = number_behind(self.is_flying(), self.job);
        self.settle(Outcome::Failed(failure));
    }

    /// The group in flight, where there is one, is over, since the store is closed.
    pub(crate) fn close_group(&mut self)
        requires room { vec_len self.old.outcomes + length (tickets_flying (flying self.old.group)) ≤ vec_capacity self.old.outcomes }
        ensures waiting { self.new.waiting ≡ self.old.waiting }
        ensures group { self.new.group ≡ None }
        ensures outcomes { self.new.outcomes.items ≡ self.old.outcomes.items ++ given Outcome.Closed (tickets_flying (flying self.old.group)) }
        ensures len { vec_len self.new.outcomes ≡ vec_len self.old.outcomes + length (tickets_flying (flying self.old.group)) }
        ensures last_ticket { self.new.last_ticket ≡ self.old.last_ticket }
        ensures job { self.new.job ≡ number_closed (is_some (flying self.old.group)) self.old.job }
        ensures room { vec_capacity self.new.outcomes ≡ vec_capacity self.old.outcomes }
    {
        self.job = number_closed(self.is_flying(), self.job);
        self.settle(Outcome::Closed);
    }

    /// How many tickets have no outcome yet.
    pub(crate) fn open_tickets(&self) -> u64
        requires { length (tickets_flying (flying self.now.group)) ≤ 64 }
        ensures { result ≡ length (tickets_flying (flying self.now.group)) + length self.now.waiting.items }
    {
        self.in_flight() as u64 + self.waiting.waiting() as u64
    }

    /// Whether a group is in flight.
    pub(crate) fn is_flying(&self) -> bool
        ensures { result ≡ is_some (flying self.now.group) }
    {
        match &self.group {
            Some(_) => true,
            None => false,
        }
    }

    /// The group in flight is over: its batches are published, numbered on behind a sequence.
    pub(crate) fn settle_done(&mut self, seq: u64, batches: &[Batch])
        requires room { vec_len self.old.outcomes + length (tickets_flying (flying self.old.group)) ≤ vec_capacity self.old.outcomes }
        requires numbers { seq + count_ops (ops_of batches.now) < 2 ^ 64 }
        ensures waiting { self.new.waiting ≡ self.old.waiting }
        ensures group { self.new.group ≡ None }
        ensures outcomes { self.new.outcomes.items ≡ self.old.outcomes.items ++ done_each seq (tickets_flying (flying self.old.group)) (ops_of batches.now) }
        ensures len { vec_len self.new.outcomes ≡ vec_len self.old.outcomes + length (tickets_flying (flying self.old.group)) }
        ensures last_ticket { self.new.last_ticket ≡ self.old.last_ticket }
        ensures job { self.new.job ≡ self.old.job }
        ensures room { vec_capacity self.new.outcomes ≡ vec_capacity self.old.outcomes }
    {
        if let Some(group) = self.group.take() {
            give_done(&mut self.outcomes, &group.tickets, seq, batches);
        }
    }

    /// All that wait are turned away with that outcome.
    pub(crate) fn turn_away(&mut self, outcome: Outcome)
        requires { vec_len self.old.outcomes + length self.old.waiting.items ≤ vec_capacity self.old.outcomes }
        ensures waiting { self.new.waiting.items ≡ [] }
        ensures group { self.new.group ≡ self.old.group }
        ensures outcomes { self.new.outcomes.items ≡ self.old.outcomes.items ++ given outcome (tickets_of self.old.waiting.items) }
        ensures len { vec_len self.new.outcomes ≡ vec_len self.old.outcomes + length self.old.waiting.items }
        ensures last_ticket { self.new.last_ticket ≡ self.old.last_ticket }
        ensures job { self.new.job ≡ self.old.job }
        ensures room { vec_capacity self.new.outcomes ≡ vec_capacity self.old.outcomes }
    {
        give(&mut self.outcomes, self.waiting.tickets(), outcome);
        drop_all(&mut self.waiting);
    }

    /// What is told of a ticket. An outcome is handed out once.
    pub(crate) fn take_outcome(&mut self, ticket: u64) -> Outcome
        ensures outcome { result ≡ outcome_told ticket self.old.outcomes.items (flying self.old.group) self.old.waiting.items }
        ensures waiting { self.new.waiting ≡ self.old.waiting }
        ensures group { self.new.group ≡ self.old.group }
        ensures outcomes { self.new.outcomes.items ≡ filter (λ entry. not (entry.0 == ticket)) self.old.outcomes.items }
        ensures len { vec_len self.new.outcomes ≤ vec_len self.old.outcomes }
        ensures last_ticket { self.new.last_ticket ≡ self.old.last_ticket }
        ensures job { self.new.job ≡ self.old.job }
        ensures room { vec_capacity self.new.outcomes ≡ vec_capacity self.old.outcomes }
    {
        let kept = kept_outcome(&self.outcomes, ticket);
        forget(&mut self.outcomes, ticket);
        match kept {
            Some(outcome) => outcome,
            None => {
                if self.is_on_its_way(ticket) {
                    Outcome::Waiting
                } else {
                    Outcome::Unknown
                }
            }
        }
    }

    // Whether the ticket's batch waits, or its group is in flight.
    fn is_on_its_way(&self, ticket: u64) -> bool
        ensures { result ≡ on_its_way ticket (flying self.now.group) self.now.waiting.items }
    {
        let in_flight = match &self.group {
            Some(group) => is_among(&group.tickets, ticket),
            None => false,
        };
        in_flight || is_among(self.waiting.tickets(), ticket)
    }
}

fn is_among(tickets: &[u64], ticket: u64) -> bool
    ensures { result ≡ list_any (λ other. other == ticket) tickets.now }
{
    tickets.iter().any(|other| *other == ticket)
}

pub(crate) fn count_ops(batches: &[Batch]) -> u64
    requires { count_ops (ops_of batches.now) < 2 ^ 64 }
    ensures { result ≡ count_ops (ops_of batches.now) }
{
    let mut total = 0;
    for batch in batches {
        total += batch.ops.len() as u64;
    }
    total
}

// Each of these tickets gets this outcome.
fn give(outcomes: &mut Vec<(u64, Outcome)>, tickets: &[u64], outcome: Outcome)
    requires { vec_len outcomes.old + length tickets.now ≤ vec_capacity outcomes.old }
    ensures items { outcomes.new.items ≡ outcomes.old.items ++ given outcome tickets.now }
    ensures len { vec_len outcomes.new ≡ vec_len outcomes.old + length tickets.now }
    ensures room { vec_capacity outcomes.new ≡ vec_capacity outcomes.old }
{
    for ticket in tickets {
        outcomes.push_reserved((*ticket, outcome));
    }
}

// Each of these tickets gets the number of its batch's last op, behind a sequence.
fn give_done(outcomes: &mut Vec<(u64, Outcome)>, tickets: &[u64], seq: u64, batches: &[Batch])
    requires room { vec_len outcomes.old + length tickets.now ≤ vec_capacity outcomes.old }
    requires numbers { seq + count_ops (ops_of batches.now) < 2 ^ 64 }
    ensures items { outcomes.new.items ≡ outcomes.old.items ++ done_each seq tickets.now (ops_of batches.now) }
    ensures len { vec_len outcomes.new ≡ vec_len outcomes.old + length tickets.now }
    ensures room { vec_capacity outcomes.new ≡ vec_capacity outcomes.old }
{
    let mut last = seq;
    for (index, ticket) in tickets.iter().enumerate() {
        last = seq_behind(last, batches, index);
        outcomes.push_reserved((*ticket, Outcome::Done { seq: last }));
    }
}

// The sequence behind the batch at that index, where there is one.
fn seq_behind(seq: u64, batches: &[Batch], index: usize) -> u64
    requires { seq + count_ops (ops_of (drop index batches.now)) < 2 ^ 64 }
    ensures { result ≡ seq_behind seq (ops_of (drop index batches.now)) }
{
    match batches.get(index) {
        Some(batch) => seq + batch.ops.len() as u64,
        None => seq,
    }
}

fn drop_all(waiting: &mut WaitQueue)
    ensures { waiting.new.items ≡ [] }
{
    'dropping: while waiting.pop().is_some() {}
}

// The outcome that is kept for a ticket.
fn kept_outcome(outcomes: &[(u64, Outcome)], ticket: u64) -> Option<Outcome>
    ensures { result ≡ outcome_kept ticket outcomes.now }
{
    outcomes
        .iter()
        .find(|entry| entry.0 == ticket)
        .map(|entry| entry.1)
}

fn forget(outcomes: &mut Vec<(u64, Outcome)>, ticket: u64)
    ensures items { outcomes.new.items ≡ filter (λ entry. not (entry.0 == ticket)) outcomes.old.items }
    ensures len { vec_len outcomes.new ≤ vec_len outcomes.old }
    ensures room { vec_capacity outcomes.new ≡ vec_capacity outcomes.old }
{
    outcomes.retain(|entry| entry.0 != ticket);
}
