// The queue of waiting batches.
ghost use Rattle.std.specs.Prelude.{◌≡◌, ◌↔◌, ◌<◌, ◌≤◌, [], ◌∷◌, ◌++◌, length, drop, IfOk, OnOk, OnErr, IsNone};
ghost use Rattle.keel_base.specs.Weight.{AreAdmissible};
ghost use Rattle.keel_group.specs.Queue.{ticketed, tickets_of, batches_of, first_ticket, ops_count};
ghost use Rattle.keel_group.specs.Forming.{EachIsAdmissible, Joins, HasRoomFor, IsFormedOf, next_size, next_batches, wants_sync};

use crate::formed::{Formed, Joined, MAX_WAITING};
use crate::sizes::{group_size, move_front, ops_count, wants_sync};
use keel_base::{Batch, OutOfMemory};
use std::alloc::Global;
use std::marker::Model;

/// The batches that wait, each under its ticket, in the order in which they joined: at most `MAX_WAITING`. Contracts
/// see them and how many more have room.
#[derive(Debug, Drop)]
pub struct WaitQueue {
    tickets: Vec<u64>,
    batches: Vec<Batch>,
}

impl Model for WaitQueue {
    ghost use Rattle.std.specs.Prelude.{◌-◌, min, vec_len, vec_capacity};
    ghost use Rattle.keel_base.specs.Reserving.{ReservedShown};
    ghost use Rattle.keel_group.specs.Queue.{Ticketed, zipped};
    ghost use Rattle.keel_group.specs.Keeping.{IsKeptQueue};

    ghost Value = { ReservedShown Ticketed };

    ghost view = { λ g. record {
      items = zipped g.tickets.items g.batches.items;
      spare = min (vec_capacity g.tickets - vec_len g.tickets) (vec_capacity g.batches - vec_len g.batches);
    } };

    ghost invariant = { λ g. IsKeptQueue g.tickets.items g.batches.items };
}

impl WaitQueue {
    /// Nothing waits. It takes no memory yet.
    pub fn new(alloc: Global) -> WaitQueue
        ensures { result.items ≡ [] }
    {
        WaitQueue {
            tickets: Vec::new(alloc),
            batches: Vec::new(alloc),
        }
    }

    /// Takes the memory of one batch more. The queue is as before.
    pub fn reserve(&mut self) -> Result<(), OutOfMemory>
        ensures items { self.new.items ≡ self.old.items }
        ensures ok { OnOk result (0 < self.new.spare) }
    {
        self.batches.reserve(1)?;
        self.tickets.reserve(1)?;
        Ok(())
    }

    /// Puts a batch of 1 to 1000 ops, each within its limits, at the end of the queue. A batch that isn't queued is
    /// dropped, and the queue is as before: exactly where `MAX_WAITING` batches wait already, or memory ran out.
    pub fn join(&mut self, ticket: u64, batch: Batch) -> Joined
        requires { AreAdmissible batch.ops }
        ensures { Joins result ticket batch self.old.items self.new.items }
    {
        if self.batches.len() >= MAX_WAITING as usize {
            return Joined::QueueFull {
                waiting: self.batches.len() as u32,
            };
        }
        if self.reserve().is_err() {
            return Joined::OutOfMemory;
        }
        self.join_reserved(ticket, batch);
        Joined::Queued
    }

    /// Puts a batch at the end of a queue that isn't full, where `reserve` took its memory.
    pub fn join_reserved(&mut self, ticket: u64, batch: Batch)
        requires admissible { AreAdmissible batch.ops }
        requires few { length self.old.items < MAX_WAITING }
        requires room { 0 < self.old.spare }
        ensures { self.new.items ≡ self.old.items ++ ticketed ticket batch ∷ [] }
    {
        self.batches.push_reserved(batch);
        self.tickets.push_reserved(ticket);
    }

    /// The batches that form the next group, in their order; none where none waits.
    pub fn next(&self) -> &[Batch]
        ensures batches { result.now ≡ next_batches self.now.items }
        ensures count { length result.now ≡ next_size self.now.items }
        ensures each { EachIsAdmissible result.now }
        ensures few { length result.now ≤ MAX_WAITING }
    {
        let batches = self.batches.as_slice();
        &batches[..group_size(batches)]
    }

    /// Takes the memory of the next group: there is room for it, and `sync` says whether one of its batches wants it.
    pub fn prepare(&self) -> Result<Formed, OutOfMemory>
        ensures room { IfOk result (λ formed. HasRoomFor (next_size self.now.items) formed) }
        ensures sync { IfOk result (λ formed. formed.sync ≡ wants_sync (next_batches self.now.items)) }
    {
        let alloc = *self.batches.allocator();
        let group = self.next();
        Ok(Formed {
            batches: Vec::with_capacity(alloc, group.len())?,
            tickets: Vec::with_capacity(alloc, group.len())?,
            sync: wants_sync(group),
        })
    }

    /// Moves the next group out of the queue into what `prepare` gave. It takes no memory.
    pub fn take_next(&mut self, formed: &mut Formed)
        requires { HasRoomFor (next_size self.old.items) formed.old }
        ensures formed { IsFormedOf self.old.items formed.new }
        ensures rest { self.new.items ≡ drop (next_size self.old.items) self.old.items }
    {
        let group = self.next();
        let count = group.len();
        formed.sync = wants_sync(group);
        move_front(&mut self.batches, &mut formed.batches, count);
        move_front(&mut self.tickets, &mut formed.tickets, count);
    }

    /// Takes the next group off the queue. Without memory for it all goes on waiting.
    pub fn form(&mut self) -> Result<Formed, OutOfMemory>
        requires { 0 < length self.old.items }
        ensures formed { IfOk result (λ formed. IsFormedOf self.old.items formed) }
        ensures some { OnOk result (0 < next_size self.old.items) }
        ensures rest { OnOk result (self.new.items ≡ drop (next_size self.old.items) self.old.items) }
        ensures err { OnErr result (self.new.items ≡ self.old.items) }
    {
        let mut formed = self.prepare()?;
        self.take_next(&mut formed);
        Ok(formed)
    }

    /// The batches that wait, in their order.
    pub fn batches(&self) -> &[Batch]
        ensures batches { result.now ≡ batches_of self.now.items }
        ensures each { EachIsAdmissible result.now }
    {
        self.batches.as_slice()
    }

    /// The tickets of the batches that wait, in their order.
    pub fn tickets(&self) -> &[u64]
        ensures { result.now ≡ tickets_of self.now.items }
    {
        self.tickets.as_slice()
    }

    /// How many batches wait.
    pub fn waiting(&self) -> u32
        ensures count { result ≡ length self.now.items }
        ensures most { result ≤ MAX_WAITING }
    {
        self.batches.len() as u32
    }

    /// How many ops the batches that wait have together.
    pub fn waiting_ops(&self) -> u64
        ensures { result ≡ ops_count (batches_of self.now.items) }
    {
        ops_count(self.batches.as_slice())
    }

    /// Takes the first waiting batch off, drops it and gives its ticket; none exactly where none waits.
    pub fn pop(&mut self) -> Option<u64>
        ensures first { result ≡ first_ticket self.old.items }
        ensures none { IsNone result ↔ (self.old.items ≡ []) }
        ensures rest { self.new.items ≡ drop 1 self.old.items }
    {
        if self.tickets.is_empty() {
            return None;
        }
        let _ = self.batches.remove(0);
        Some(self.tickets.remove(0))
    }
}
