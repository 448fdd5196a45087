// The batches since the opening.
ghost use Rattle.std.specs.Prelude.{◌≡◌, ◌+◌, ◌≤◌, [], ◌++◌, length, vec_len, vec_capacity, OnOk};

use keel_base::Batch;
use std::alloc::{AllocError, Global};

/// The number of the last op at the opening, the batches that were handed to a log since, and how many of these are
/// published.
#[derive(Drop)]
pub struct Trail {
    start: u64,
    batches: Vec<Batch>,
    published: usize,
    floor: usize,
    ghost within: { published ≤ vec_len batches },
    ghost held: { floor ≤ published },
}

impl Trail {
    ghost use Rattle.keel_machine.specs.Admission.{ops_of};
    ghost use Rattle.keel_core.specs.Trails.{shown, log_in, limbo_in, IsEmptyTrail, handed, published as all_published, cleared};

    pub(crate) fn new(alloc: Global, start: u64) -> Trail
        ensures { IsEmptyTrail start result }
    {
        Trail {
            start,
            batches: Vec::new(alloc),
            published: 0,
            floor: 0,
        }
    }

    /// The number of the last op at the opening.
    pub fn start(&self) -> u64
        ensures { result ≡ (shown self.now).start }
    {
        self.start
    }

    /// The batches that were published since, in their order.
    pub fn log(&self) -> &[Batch]
        ensures { result.now ≡ log_in self.now }
    {
        &self.batches.as_slice()[..self.published]
    }

    /// The batches that were handed to the log and aren't published.
    pub fn limbo(&self) -> &[Batch]
        ensures { result.now ≡ limbo_in self.now }
    {
        &self.batches.as_slice()[self.published..]
    }

    /// How many of the published batches must not be lost.
    pub fn floor(&self) -> usize
        ensures { result ≡ (shown self.now).floor }
    {
        self.floor
    }

    /// Takes the memory for so many batches more.
    pub(crate) fn reserve(&mut self, count: usize) -> Result<(), AllocError>
        ensures same { shown self.new ≡ shown self.old }
        ensures limbo { limbo_in self.new ≡ limbo_in self.old }
        ensures count { vec_len self.new.batches ≡ vec_len self.old.batches }
        ensures room { vec_capacity self.old.batches ≤ vec_capacity self.new.batches }
        ensures ok { OnOk result (vec_len self.new.batches + count ≤ vec_capacity self.new.batches) }
    {
        self.batches.reserve(count)
    }

    /// Batches were handed to the log.
    pub(crate) fn hand(&mut self, batches: Vec<Batch>)
        requires { vec_len self.old.batches + length batches.items ≤ vec_capacity self.old.batches }
        ensures shown { shown self.new ≡ handed (ops_of batches.items) (shown self.old) }
        ensures limbo { limbo_in self.new ≡ limbo_in self.old ++ batches.items }
        ensures count { vec_len self.new.batches ≡ vec_len self.old.batches + length batches.items }
        ensures room { vec_capacity self.old.batches ≤ vec_capacity self.new.batches }
    {
        let mut batches = batches;
        let _ = self.batches.append(&mut batches);
    }

    /// What is in limbo is published. Behind a sync none of it must be lost.
    pub(crate) fn publish(&mut self, sync: bool)
        ensures shown { shown self.new ≡ all_published sync (shown self.old) }
        ensures limbo { limbo_in self.new ≡ [] }
        ensures count { vec_len self.new.batches ≡ vec_len self.old.batches }
        ensures room { vec_capacity self.new.batches ≡ vec_capacity self.old.batches }
    {
        self.published = self.batches.len();
        if sync {
            self.floor = self.published;
        }
    }

    /// None of the published batches must be lost. Nothing is in limbo.
    pub(crate) fn clear(&mut self)
        ensures shown { shown self.new ≡ cleared (shown self.old) }
        ensures limbo { limbo_in self.new ≡ [] }
        ensures count { vec_len self.new.batches ≤ vec_len self.old.batches }
        ensures room { vec_capacity self.new.batches ≡ vec_capacity self.old.batches }
    {
        self.batches.truncate(self.published);
        self.floor = self.published;
    }
}
