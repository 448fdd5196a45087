// The store: what it keeps, and the calls that make none of the device.
ghost use Rattle.std.specs.Prelude.{◌≡◌, ◌<◌, IfOk, true};
ghost use Rattle.keel_disk.specs.declared.rule.Arranged.TheVariants as Arranged;
ghost use Rattle.keel_disk.specs.Rule.{IsAllowed};
ghost use Rattle.keel_disk.specs.Seen.{IsArranged};
ghost use Rattle.keel_disk.specs.Told.{Arranges};
ghost use Rattle.keel_machine.specs.declared.answers.Outcome.TheVariants.{Waiting};
ghost use Rattle.keel_machine.specs.Turns as event;
ghost use Rattle.keel_machine.specs.Turns.{Admitting, Arranging, TakingOutcome};
ghost use Rattle.keel_core.specs.Trails.{shown};
ghost use Rattle.keel_core.specs.Views.{TakesTurn, last_in, calls_left, with_device, is_full, is_store_full, has_booted, is_closed, IsReady};

use crate::boot::Boot;
use crate::flushing::Flushing;
use crate::handling::stopping;
use crate::log::OwnLog;
use crate::queue::Queue;
use crate::segments::Segment;
use crate::sizes::size_refusal;
use crate::tables::Tables;
use crate::trail::Trail;
use keel_base::{Batch, Counter, LAST_NUMBER, Listing, Options, OutOfMemory};
use keel_disk::{Device, Disk, DiskError, Rule};
use keel_group::MAX_WAITING;
use keel_handler::Handler;
use keel_machine::{Admit, Outcome};
use keel_manifest::{Manifest, NextFile};
use keel_mem::Mem;
use std::alloc::Global;
use std::marker::Model;

/// A store over a device, which boots or takes writes.
#[derive(Drop)]
pub struct Core<D: Disk> {
    pub(crate) disk: D,
    pub(crate) options: Options,
    pub(crate) boot: Boot,
    // the number of the boot or resume that is or was last under way
    pub(crate) boot_job: u64,
    pub(crate) trail: Trail,
    // the full segments, oldest first, and the rows of the active one
    pub(crate) segments: Vec<Segment>,
    pub(crate) mem: Mem,
    pub(crate) log: Option<OwnLog>,
    pub(crate) tables: Tables,
    pub(crate) queue: Queue,
    // the sequence of the last published op, and of the last one that was handed to a log
    pub(crate) last_seq: u64,
    pub(crate) handed_seq: u64,
    pub(crate) next_file: NextFile,
    pub(crate) manifest: Manifest,
    // the flush that runs, and the number of the one that runs or ran last
    pub(crate) flush: Option<Flushing>,
    pub(crate) flush_job: u64,
    pub(crate) handler: Handler,
}

impl<D: Disk> Model for Core<D> {
    ghost use Rattle.std.specs.Prelude.{length};
    ghost use Rattle.keel_core.specs.Boots.{boot_shown, levels_in};
    ghost use Rattle.keel_core.specs.Orders.{IsInOrder};
    ghost use Rattle.keel_core.specs.Flights.{flying, log_shown};
    ghost use Rattle.keel_core.specs.Segments.{segments_shown};
    ghost use Rattle.keel_core.specs.Trails.{shown};
    ghost use Rattle.keel_core.specs.Views.{CoreView};

    ghost Value = { CoreView };

    ghost view = { λ c. record {
      device = D.seen c.disk;
      options = c.options;
      boot = boot_shown c.boot;
      boot_job = c.boot_job;
      trail = shown c.trail;
      immutable = segments_shown c.segments.items;
      rows = c.mem.rows;
      log = log_shown c.log;
      levels = levels_in c.tables;
      waiting = c.queue.waiting.items;
      group = flying c.queue.group;
      outcomes = c.queue.outcomes.items;
      last_ticket = c.queue.last_ticket;
      job = c.queue.job;
      flush = c.flush;
      flush_job = c.flush_job;
      handler = c.handler;
      next_file = c.next_file.number;
      manifest = c.manifest;
    } };

    ghost invariant = { λ c. IsInOrder c.mem c.trail c.queue (length c.segments.items) c.last_seq c.handed_seq c.next_file.number };
}

impl<D: Disk> Core<D> {
    /// The sequence of the store's point: what the opening found, and then the last published one.
    pub fn last_seq(&self) -> u64
        ensures { result ≡ last_in self.now }
    {
        self.last_seq
    }

    /// The options that it was opened with.
    pub fn options(&self) -> &Options
        ensures { result.now ≡ self.now.options }
    {
        &self.options
    }

    /// The batches since the opening.
    pub fn trail(&self) -> &Trail
        ensures { shown result.now ≡ self.now.trail }
    {
        &self.trail
    }

    /// Takes a batch in, where nothing refuses it. A batch that isn't queued is dropped.
    pub fn admit(&mut self, batch: Batch) -> Admit
        ensures turn { TakesTurn self.old (Admitting batch result) self.new }
    {
        if let Some(refusal) = size_refusal(&batch) {
            return refusal;
        }
        if self.is_closed() {
            return Admit::Closing;
        }
        if !self.has_booted() {
            return Admit::Booting;
        }
        match stopping(&self.handler) {
            Some(failure) => return Admit::Stopped(failure),
            None => {}
        }
        let ops = batch.ops.len() as u64;
        if self.handed_seq + self.queue.ops_before() + ops > LAST_NUMBER {
            return Admit::Spent(Counter::Sequence);
        }
        if self.queue.last_ticket >= LAST_NUMBER {
            return Admit::Spent(Counter::Ticket);
        }
        if self.is_store_full() {
            return Admit::Full {
                active: self.mem.weight(),
                immutables: self.segments.len() as u32,
            };
        }
        let waiting = self.queue.waiting.waiting();
        if waiting >= MAX_WAITING {
            return Admit::QueueFull { waiting };
        }
        let held = self.queue.held() + waiting as usize;
        if self.trail.reserve(held + 1).is_err() {
            return Admit::OutOfMemory;
        }
        if self.queue.reserve().is_err() {
            return Admit::OutOfMemory;
        }
        // Room in the memtable adds up, so it is the last that is taken: a refused batch has none.
        if self.mem.reserve(&batch).is_err() {
            return Admit::OutOfMemory;
        }
        let ticket = self.queue.last_ticket + 1;
        self.queue.waiting.join_reserved(ticket, batch);
        self.queue.last_ticket = ticket;
        Admit::Queued { ticket }
    }

    /// What became of a ticket. An outcome is handed out once.
    pub fn take_outcome(&mut self, ticket: u64) -> Outcome
        ensures turn { TakesTurn self.old (TakingOutcome ticket result) self.new }
        ensures waits { result ≡ Waiting → 0 < calls_left self.old }
        ensures same { calls_left self.new ≡ calls_left self.old }
    {
        self.queue.take_outcome(ticket)
    }

    /// The files of the directory with their sizes, in the order of their printed names.
    pub fn list(&mut self, alloc: Global) -> Result<Listing, DiskError>
        ensures turn { TakesTurn self.old (event.Listing result) self.new }
    {
        self.disk.list(alloc)
    }

    /// Hands the device back. It makes no call.
    pub fn finish(self) -> D
        ensures { D.seen result ≡ self.device }
    {
        self.disk
    }

    // Whether the boot of this opening has cleared.
    pub(crate) fn has_booted(&self) -> bool
        ensures { has_booted self.now.boot ≡ result }
    {
        match self.boot {
            Boot::ToStart => false,
            Boot::Started { booted } => booted,
            Boot::Running { booted, .. } => booted,
            Boot::Cleared => true,
            Boot::Closed { booted } => booted,
        }
    }

    // Whether the store was closed.
    pub(crate) fn is_closed(&self) -> bool
        ensures { is_closed self.now.boot ≡ result }
    {
        matches!(self.boot, Boot::Closed { .. })
    }

    // Whether nothing else is under way, and there is a log. Where a write step or a flush step is to make a call it always is
    // so: behind a failed resume, which leaves no log, both rest.
    pub(crate) fn is_ready(&self) -> bool
        ensures { result ≡ true → IsReady self.now }
    {
        match self.boot {
            Boot::Cleared => self.log.is_some(),
            _ => false,
        }
    }

    // Whether the active segment takes no further group.
    pub(crate) fn is_full(&self) -> bool
        ensures { result ≡ is_full self.now }
    {
        self.mem.weight() >= self.options.write_buffer
    }

    // Whether no other segment may follow it either.
    pub(crate) fn is_store_full(&self) -> bool
        ensures { result ≡ is_store_full self.now }
    {
        self.is_full() && self.segments.len() >= self.options.max_immutables as usize
    }
}

impl<D: Device> Core<D> {
    /// Whether failures and crashes can be arranged on the device.
    pub fn simulated(&self) -> bool
        ensures { result ≡ self.now.device.simulated }
    {
        self.disk.simulated()
    }

    /// Arranges how calls of the device are to fail, or how much it holds, where that can be arranged. Only the
    /// device's room may change.
    pub fn arrange(&mut self, alloc: Global, rule: Rule) -> Result<bool, OutOfMemory>
        requires { IsAllowed rule }
        ensures answer { IfOk result (λ done. done ≡ self.old.device.simulated) }
        ensures told { Arranges self.old.device.told result self.new.device.told }
        ensures rest { IsArranged (Arranged.Armed rule) self.old.device result self.new.device }
        ensures same { self.new ≡ with_device self.new.device self.old }
        ensures turn { TakesTurn self.old (Arranging rule result) self.new }
    {
        self.disk.arrange(alloc, rule)
    }
}
